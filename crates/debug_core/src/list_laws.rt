//! What the sets that a form's assignments select have to do with the list of a design's minimal sets. Each law is the contract of a
//! function that does nothing, over values that no code holds.

ghost use Rattle.std.specs.Prelude.{ℕ, List, ◌+◌, ◌++◌, [], ◌∷◌, length};
ghost use Rattle.card_counter.specs.Shows.{Shows, last_of};
ghost use Rattle.clause_base.specs.declared.log.Step.{Step};
ghost use Rattle.design_core.specs.Listing.{IsFront, IsList};
ghost use Rattle.form_laws.specs.Designs.{IsOfDesign, OfDesign};
ghost use Rattle.front_cert.specs.Certificates.{IsCertificate as IsCertificateAfter};
ghost use Rattle.set_enum.specs.Certificate.{IsCertificate};
ghost use Rattle.set_enum.specs.EnumState.{EnumState};
ghost use Rattle.set_enum.specs.Sets.{IsFirst, NoneBelow};
ghost use Rattle.debug_core.specs.Debugging.{DebugState, IsDebugger};
ghost use Rattle.debug_core.specs.Listed.{AreGiven, EncodesForm, EncodesListed, IsShownFront, Listed, ListedNext, LoggedList, with_blocks};
ghost use Rattle.debug_core.specs.Problems.{suspect_count};
ghost use Rattle.debug_core.specs.Sessions.{IsSession};

/// The form of a design's circuit encodes the sets of at most k suspects that work in the design.
pub fn form_encodes_list()
    ghost of: { OfDesign }
    requires { IsOfDesign of }
    ensures { EncodesForm of }
{}

/// Where a front was listed, the first set that the form and the blocks of the front select is the next of the list.
pub fn first_is_next()
    ghost next: { ListedNext }
    requires encodes { EncodesListed next.before }
    requires front { IsFront next.before.design next.before.traces next.before.groups next.before.k next.before.listed }
    requires first { IsFirst (length next.before.groups) next.before.k (with_blocks next.before) next.set }
    ensures { IsFront next.before.design next.before.traces next.before.groups next.before.k (next.before.listed ++ next.set ∷ []) }
{}

/// Where a front was listed and no set of at most k suspects is left to select, the front is the whole list.
pub fn none_left_is_whole()
    ghost of: { Listed }
    requires encodes { EncodesListed of }
    requires front { IsFront of.design of.traces of.groups of.k of.listed }
    requires none { NoneBelow (length of.groups) (of.k + 1) (with_blocks of) }
    ensures { IsList of.design of.traces of.groups of.k of.listed }
{}

/// Sets that work, stand in order and hold none within another are a front where a log that follows from the clauses and their blocks shows
/// that none is missing before the last one.
pub fn shown_is_listed_front()
    ghost of: { LoggedList }
    requires encodes { EncodesListed of.list }
    requires given { AreGiven of.list }
    requires shown { IsShownFront of }
    ensures { IsFront of.list.design of.list.traces of.list.groups of.list.k of.list.listed }
{}

/// What a debugger leaves whose log shows that no set is missing before the last one, as behind `finish`, is a session: another debugger of the
/// problem may go on from it.
pub fn shown_is_session()
    ghost of: { DebugState }
    requires holds { IsDebugger of }
    requires shows { Shows (suspect_count of.problem) of.problem.k (last_of of.listed) of.log }
    ensures { IsSession of.problem of.form of.listed of.log }
{}

/// What an enumerator gives as the certificate of a set may stand behind its log, also once that has grown.
pub fn enumerator_certifies()
    ensures { (s : EnumState) (members : List ℕ) (steps : List Step) → IsCertificate s members steps
        → IsCertificateAfter s.n s.k s.form members s.log steps }
{}
