//! What the operators mean: whole numbers of the standard's operators. Each law is the contract of a function that does
//! nothing.

ghost use Rattle.std.specs.Prelude.{[], ◌%◌, ◌*◌, ◌+◌, ◌-◌, ◌==◌, ◌^◌, ◌≡◌, ◌≤◌, false, if◌then◌else◌, int_lt, length, slice_index_or, true};
ghost use Rattle.loc_base.specs.Word.{is_negative};
ghost use Rattle.gate_base.specs.Meaning.{Gives, Means, MeansAll};
ghost use Rattle.gate_base.specs.declared.literal.Literal.TheVariants.{Known};
ghost use Rattle.bit_words.specs.Bits.{GivesWord, IsWord, integer_of, one_if};
ghost use Rattle.bit_words.specs.Bitwise.{bitwise_made, bitwise_number};
ghost use Rattle.bit_words.specs.Choose.{choice_made};
ghost use Rattle.bit_words.specs.Equal.{equal_made};
ghost use Rattle.bit_words.specs.Add.{difference_made, minus_made, sum_made};
ghost use Rattle.bit_words.specs.Less.{less_made};
ghost use Rattle.bit_words.specs.Multiply.{product_made};
ghost use Rattle.bit_words.specs.Shift.{MayFill, shift_made, shifted_number};
ghost use Rattle.bit_words.specs.Index.{NamesFit, pick_made, picked, put, put_made};
ghost use Rattle.bit_words.specs.Laws.{Indexed, Operands};

/// Sums, differences and minus a word are those of the numbers, as far as the width reaches (5.1.5).
pub fn sums_mean()
    ghost of: { Operands }
    requires left { IsWord of.source of.nodes of.left of.a }
    requires right { IsWord of.source of.nodes of.right of.b }
    requires carry { Means of.source of.nodes of.literal of.c }
    requires widths { length of.left ≡ length of.right }
    ensures sum { GivesWord of.source of.nodes (sum_made of.nodes [] of.left of.right of.literal) ((of.a + of.b + one_if of.c) % 2 ^ length of.left) }
    ensures difference { GivesWord of.source of.nodes (difference_made of.nodes [] of.left of.right) ((of.a + (2 ^ length of.left - of.b)) % 2 ^ length of.left) }
    ensures minus { GivesWord of.source of.nodes (minus_made of.nodes [] of.left) ((2 ^ length of.left - of.a) % 2 ^ length of.left) }
{}

/// Comparisons are those of the whole numbers that the words mean, by sign (5.1.7, 5.1.8).
pub fn comparisons_mean()
    ghost of: { Operands }
    requires left { IsWord of.source of.nodes of.left of.a }
    requires right { IsWord of.source of.nodes of.right of.b }
    requires widths { length of.left ≡ length of.right }
    requires some { 1 ≤ length of.left }
    ensures equal { Gives of.source of.nodes (equal_made of.nodes (Known true) of.left of.right) (of.a == of.b) }
    ensures less { Gives of.source of.nodes (less_made of.signed of.nodes of.left of.right) (int_lt (integer_of of.signed (length of.left) of.a) (integer_of of.signed (length of.left) of.b)) }
{}

/// A choice is the chosen number, and operators that go bit by bit are those of the numbers (5.1.10, 5.1.13).
pub fn choices_mean()
    ghost of: { Operands }
    requires left { IsWord of.source of.nodes of.left of.a }
    requires right { IsWord of.source of.nodes of.right of.b }
    requires condition { Means of.source of.nodes of.literal of.c }
    requires widths { length of.left ≡ length of.right }
    ensures choice { GivesWord of.source of.nodes (choice_made of.nodes [] of.literal of.left of.right) (if of.c then of.a else of.b) }
    ensures bitwise { GivesWord of.source of.nodes (bitwise_made of.operator of.nodes [] of.left of.right) (bitwise_number of.operator (length of.left) of.a of.b) }
{}

/// A product is that of the numbers, as far as the width reaches (5.1.5).
pub fn products_mean()
    ghost of: { Operands }
    requires left { IsWord of.source of.nodes of.left of.a }
    requires right { IsWord of.source of.nodes of.right of.b }
    requires widths { length of.left ≡ length of.right }
    ensures { GivesWord of.source of.nodes (product_made of.nodes of.left of.right) (of.a * of.b % 2 ^ length of.left) }
{}

/// A shift is that of the numbers; at the right end zeros come in (5.1.12).
pub fn shifts_mean()
    ghost of: { Operands }
    requires fill { Means of.source of.nodes of.literal of.c }
    requires left { IsWord of.source of.nodes of.left of.a }
    requires right { IsWord of.source of.nodes of.right of.b }
    requires may { MayFill of.direction of.c }
    ensures { GivesWord of.source of.nodes (shift_made of.nodes of.direction of.literal of.left of.right) (shifted_number of.direction of.c (length of.left) of.a of.b) }
{}

/// The top bit of a word says whether it is negative as two's complement.
pub fn top_bit_means()
    ghost of: { Operands }
    requires word { IsWord of.source of.nodes of.left of.a }
    requires some { 1 ≤ length of.left }
    ensures { Means of.source of.nodes (slice_index_or of.left (length of.left - 1) (Known false)) (is_negative (length of.left) of.a) }
{}

/// A read by an index is the bit that the index's number names, if any, and a store puts the last bit that it names
/// (5.2.1).
pub fn indexes_mean()
    ghost of: { Indexed }
    requires index { IsWord of.source of.nodes of.index of.v }
    requires word { MeansAll of.source of.nodes of.literals of.bits }
    requires old { Means of.source of.nodes of.old of.a }
    requires fit { NamesFit (length of.index) of.names }
    ensures pick { Gives of.source of.nodes (pick_made of.nodes (Known false) of.index of.literals of.names) (picked of.v false of.bits of.names) }
    ensures put { Gives of.source of.nodes (put_made of.nodes of.old of.index of.literals of.names) (put of.v of.a of.bits of.names) }
{}
