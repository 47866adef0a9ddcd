//! Expressions with the width, the sign and the value that Icarus Verilog 11.0 gives (Debian's package `iverilog`,
//! 11.0): the width by `$bits`, the sign by a comparison of `(e - e) - 2'sd1` with `2'sd0`, the value by `$display`,
//! of variables that hold the words of `scopes.rt`; in a context, of a variable of its width that was assigned. A bit
//! that Icarus gives as x, since it lies outside the word that is read, is 0 here: values have two states.

/// An expression; the width of its context, 0 for none; and what it has: its width, whether it is signed, and its
/// value.
pub type Row = (&'static [u8], u8, (u8, bool, u128));

/// Operators whose operands the context sizes.
pub const OPERATORS: [Row; 30] = [
    (b"a + b", 0, (8, false, 44)),
    (b"(a + b) >> 1", 0, (8, false, 22)),
    (b"(a + b + 0) >> 1", 0, (32, false, 150)),
    (b"a - b", 0, (8, false, 100)),
    (b"b - a", 0, (8, false, 156)),
    (b"a * b", 0, (8, false, 32)),
    (b"-a", 0, (8, false, 56)),
    (b"~n", 0, (4, false, 6)),
    (b"+s", 0, (8, true, 156)),
    (b"-s", 0, (8, true, 100)),
    (b"s + t", 0, (8, true, 206)),
    (b"s + b", 0, (8, false, 0)),
    (b"s * t", 0, (8, true, 120)),
    (b"s >>> 2", 0, (8, true, 231)),
    (b"s >> 2", 0, (8, true, 39)),
    (b"a >>> 2", 0, (8, false, 50)),
    (b"(s >>> 2) + b", 0, (8, false, 139)),
    (b"s << 1", 0, (8, true, 56)),
    (b"s <<< 1", 0, (8, true, 56)),
    (b"a >> m", 0, (8, false, 0)),
    (b"s >>> k", 0, (8, true, 206)),
    (b"4'sb1111 + m", 0, (4, true, 12)),
    (b"8'hff + 1'b1", 0, (8, false, 0)),
    (b"a ^ s", 0, (8, false, 84)),
    (b"a ~^ b", 0, (8, false, 83)),
    (b"s & t", 0, (8, true, 16)),
    (b"m | t", 0, (8, true, 255)),
    (b"'hff", 0, (32, false, 255)),
    (b"'sd5 - 6", 0, (32, true, 4294967295)),
    (b"(m >>> 1) + 4'd0", 0, (4, false, 6)),
];

/// Operators of one bit.
pub const COMPARISONS: [Row; 23] = [
    (b"s < t", 0, (1, false, 1)),
    (b"s < b", 0, (1, false, 0)),
    (b"m < n", 0, (1, false, 0)),
    (b"m == 4'b1101", 0, (1, false, 1)),
    (b"m == 8'shfd", 0, (1, false, 1)),
    (b"m == 8'hfd", 0, (1, false, 0)),
    (b"s == 8'h9c", 0, (1, false, 1)),
    (b"n != m", 0, (1, false, 1)),
    (b"a >= b", 0, (1, false, 1)),
    (b"s <= t", 0, (1, false, 1)),
    (b"s > -1", 0, (1, false, 0)),
    (b"a - 201 < 0", 0, (1, false, 0)),
    (b"a && 0", 0, (1, false, 0)),
    (b"!a", 0, (1, false, 0)),
    (b"a || k", 0, (1, false, 1)),
    (b"&a", 0, (1, false, 0)),
    (b"~&n", 0, (1, false, 1)),
    (b"|n", 0, (1, false, 1)),
    (b"~|n", 0, (1, false, 0)),
    (b"^a", 0, (1, false, 1)),
    (b"~^a", 0, (1, false, 0)),
    (b"!k ? s : m", 0, (8, true, 253)),
    (b"-m < 0", 0, (1, false, 0)),
];

/// Concatenations, replications, conditionals, functions.
pub const JOINED: [Row; 12] = [
    (b"k ? a : n", 0, (8, false, 200)),
    (b"k ? s : t", 0, (8, true, 156)),
    (b"k ? m : b", 0, (8, false, 13)),
    (b"{a, n}", 0, (12, false, 3209)),
    (b"{2{n}}", 0, (8, false, 153)),
    (b"{3{k, n}}", 0, (15, false, 26425)),
    (b"{s}", 0, (8, false, 156)),
    (b"$signed(n)", 0, (4, true, 9)),
    (b"$signed(n) >>> 1", 0, (4, true, 12)),
    (b"$unsigned(m)", 0, (4, false, 13)),
    (b"$unsigned(m) >>> 1", 0, (4, false, 6)),
    (b"$signed({1'b1, n}) + t", 0, (8, true, 43)),
];

/// Selects by constants, some of them partly outside the word.
pub const SELECTS: [Row; 15] = [
    (b"n << t[1:0]", 0, (4, false, 4)),
    (b"a[7:4]", 0, (4, false, 12)),
    (b"a[3]", 0, (1, false, 1)),
    (b"u[2:5]", 0, (4, false, 9)),
    (b"u[0]", 0, (1, false, 1)),
    (b"v[11:8]", 0, (4, false, 3)),
    (b"v[6 +: 3]", 0, (3, false, 7)),
    (b"v[9 -: 4]", 0, (4, false, 15)),
    (b"u[2 +: 3]", 0, (3, false, 4)),
    (b"u[5 -: 3]", 0, (3, false, 1)),
    (b"s[7:4]", 0, (4, false, 9)),
    (b"s[7:4] + m", 0, (4, false, 6)),
    (b"a[9:6]", 0, (4, false, 3)),
    (b"a[9 -: 4]", 0, (4, false, 3)),
    (b"a[-1 +: 2]", 0, (2, false, 0)),
];

/// Selects by variable indexes, some of them outside the word.
pub const INDEXED: [Row; 10] = [
    (b"a[n]", 0, (1, false, 0)),
    (b"a[n - 6]", 0, (1, false, 1)),
    (b"a[m]", 0, (1, false, 0)),
    (b"s[m + 5]", 0, (1, false, 1)),
    (b"a[k +: 4]", 0, (4, false, 4)),
    (b"u[k +: 3]", 0, (3, false, 2)),
    (b"u[n -: 3]", 0, (3, false, 4)),
    (b"v[n -: 4]", 0, (4, false, 15)),
    (b"a[n[1:0]]", 0, (1, false, 0)),
    (b"a[{k, 1'b1}]", 0, (1, false, 1)),
];

/// Words of an array.
pub const ARRAYS: [Row; 13] = [
    (b"mem[n]", 0, (8, true, 173)),
    (b"mem[n][5:2]", 0, (4, false, 11)),
    (b"mem[n][4]", 0, (1, false, 0)),
    (b"mem[n][1 +: 3]", 0, (3, false, 6)),
    (b"mem[n][9:6]", 0, (4, false, 2)),
    (b"mem[9]", 0, (8, true, 173)),
    (b"mem[9][5:2]", 0, (4, false, 11)),
    (b"mem[2]", 0, (8, true, 0)),
    (b"mem[k]", 0, (8, true, 0)),
    (b"mem[n] >>> 1", 0, (8, true, 214)),
    (b"mem[n] + 1", 0, (32, true, 4294967214)),
    (b"mem[n] < 0", 0, (1, false, 1)),
    (b"{2{mem[n]}}", 0, (16, false, 44461)),
];

/// In an assignment of a width.
pub const CONTEXTS: [Row; 18] = [
    (b"4'd1 % (4'd8 + 4'd8)", 8, (8, false, 1)),
    (b"(a + b) >> 1", 16, (16, false, 150)),
    (b"-n", 8, (8, false, 247)),
    (b"~n", 8, (8, false, 246)),
    (b"s + t", 16, (16, true, 65486)),
    (b"s + b", 16, (16, false, 256)),
    (b"s >>> 1", 16, (16, true, 65486)),
    (b"s >> 1", 16, (16, true, 32718)),
    (b"a << 4", 16, (16, false, 3200)),
    (b"$signed(n)", 8, (8, true, 249)),
    (b"m * m", 8, (8, true, 9)),
    (b"m == n", 4, (4, false, 0)),
    (b"k ? m : n", 8, (8, false, 13)),
    (b"k ? m : s", 16, (16, true, 65533)),
    (b"{a} + b", 16, (16, false, 300)),
    (b"~k", 4, (4, false, 14)),
    (b"(s < b) - 1'd1", 8, (8, false, 255)),
    (b"m[3:2] - 1", 40, (40, false, 2)),
];

/// In a context of a width that something beside the expression makes unsigned; of Icarus, the sum with an unsigned 0
/// of that width.
pub const UNSIGNED: [Row; 8] = [
    (b"s + t", 16, (16, false, 206)),
    (b"s >>> 1", 16, (16, false, 78)),
    (b"m", 8, (8, false, 13)),
    (b"k ? m : m", 8, (8, false, 13)),
    (b"-m", 8, (8, false, 243)),
    (b"m * m", 8, (8, false, 169)),
    (b"m < 0", 8, (8, false, 1)),
    (b"$signed(n)", 8, (8, false, 9)),
];

/// What stands in constants alone.
pub const CONSTANTS: [Row; 10] = [
    (b"a / b", 0, (8, false, 2)),
    (b"s / t", 0, (8, true, 254)),
    (b"s % t", 0, (8, true, 0)),
    (b"a % b", 0, (8, false, 0)),
    (b"-7 / 2", 0, (32, true, 4294967293)),
    (b"-7 % 2", 0, (32, true, 4294967295)),
    (b"2 ** 10", 0, (32, true, 1024)),
    (b"m ** 2", 0, (4, true, 9)),
    (b"$clog2(a)", 0, (32, true, 8)),
    (b"-7 / 2", 40, (40, true, 1099511627773)),
];
