//! Values that Python's integers gave, at the widths 1, 7, 8, 63, 64, 127 and 128.

/// A table with a row for each width, operands and expected value.
macro_rules! rows {
    ($($width:literal: $($operand:literal),+ => $want:literal;)*) => {
        [$(($width, $($operand),+, $want)),*]
    };
}

/// Two values and their sum.
pub const SUMS: [(u8, u128, u128, u128); 20] = rows! {
    1: 1, 1 => 0;
    1: 1, 0 => 1;
    7: 127, 1 => 0;
    7: 64, 96 => 32;
    7: 23, 21 => 44;
    8: 255, 1 => 0;
    8: 128, 101 => 229;
    8: 140, 87 => 227;
    63: 0x7fffffffffffffff, 1 => 0;
    63: 0x4000000000000000, 0xcc8 => 0x4000000000000cc8;
    63: 0x29863404792eadd8, 0x65bb8667cd468425 => 0xf41ba6c467531fd;
    64: 0xffffffffffffffff, 1 => 0;
    64: 0x8000000000000000, 0x488 => 0x8000000000000488;
    64: 0xcf7a5308f9432670, 0x939b6c3793c8102f => 0x6315bf408d0b369f;
    127: 0x7fffffffffffffffffffffffffffffff, 1 => 0;
    127: 0x40000000000000000000000000000000, 0xc30 => 0x40000000000000000000000000000c30;
    127: 0x3eb7bd10aef7d22cdca39a4b7eafba6f, 683 => 0x3eb7bd10aef7d22cdca39a4b7eafbd1a;
    128: 0xffffffffffffffffffffffffffffffff, 1 => 0;
    128: 0x80000000000000000000000000000000, 485 => 0x800000000000000000000000000001e5;
    128: 0x6131e7607c5f7f99f72efa9e1591800b, 0xd2f => 0x6131e7607c5f7f99f72efa9e15918d3a;
};

/// Two values and their difference.
pub const DIFFERENCES: [(u8, u128, u128, u128); 20] = rows! {
    1: 1, 1 => 0;
    1: 0, 1 => 1;
    7: 1, 127 => 2;
    7: 96, 64 => 32;
    7: 21, 23 => 126;
    8: 1, 255 => 2;
    8: 101, 128 => 229;
    8: 87, 140 => 203;
    63: 1, 0x7fffffffffffffff => 2;
    63: 0xcc8, 0x4000000000000000 => 0x4000000000000cc8;
    63: 0x65bb8667cd468425, 0x29863404792eadd8 => 0x3c3552635417d64d;
    64: 1, 0xffffffffffffffff => 2;
    64: 0x488, 0x8000000000000000 => 0x8000000000000488;
    64: 0x939b6c3793c8102f, 0xcf7a5308f9432670 => 0xc421192e9a84e9bf;
    127: 1, 0x7fffffffffffffffffffffffffffffff => 2;
    127: 0xc30, 0x40000000000000000000000000000000 => 0x40000000000000000000000000000c30;
    127: 683, 0x3eb7bd10aef7d22cdca39a4b7eafba6f => 0x414842ef51082dd3235c65b48150483c;
    128: 1, 0xffffffffffffffffffffffffffffffff => 2;
    128: 485, 0x80000000000000000000000000000000 => 0x800000000000000000000000000001e5;
    128: 0xd2f, 0x6131e7607c5f7f99f72efa9e1591800b => 0x9ece189f83a0806608d10561ea6e8d24;
};

/// Two values and their product.
pub const PRODUCTS: [(u8, u128, u128, u128); 20] = rows! {
    1: 1, 1 => 1;
    1: 1, 0 => 0;
    7: 127, 1 => 127;
    7: 64, 96 => 0;
    7: 23, 21 => 99;
    8: 255, 1 => 255;
    8: 128, 101 => 128;
    8: 140, 87 => 148;
    63: 0x7fffffffffffffff, 1 => 0x7fffffffffffffff;
    63: 0x4000000000000000, 0xcc8 => 0;
    63: 0x29863404792eadd8, 0x65bb8667cd468425 => 0x670a590316728038;
    64: 0xffffffffffffffff, 1 => 0xffffffffffffffff;
    64: 0x8000000000000000, 0x488 => 0;
    64: 0xcf7a5308f9432670, 0x939b6c3793c8102f => 0x3a3e9bd24d3b0e90;
    127: 0x7fffffffffffffffffffffffffffffff, 1 => 0x7fffffffffffffffffffffffffffffff;
    127: 0x40000000000000000000000000000000, 0xc30 => 0;
    127: 0x3eb7bd10aef7d22cdca39a4b7eafba6f, 683 => 0x54356b82cf2dbdb0a87ca76afed66625;
    128: 0xffffffffffffffffffffffffffffffff, 1 => 0xffffffffffffffffffffffffffffffff;
    128: 0x80000000000000000000000000000000, 485 => 0x80000000000000000000000000000000;
    128: 0x6131e7607c5f7f99f72efa9e1591800b, 0xd2f => 0x60e96107af033ed1c45a0a1e59371105;
};

/// Two values and their bitwise and.
pub const ANDS: [(u8, u128, u128, u128); 10] = rows! {
    1: 1, 1 => 1;
    7: 127, 1 => 1;
    7: 23, 21 => 21;
    8: 128, 101 => 0;
    63: 0x7fffffffffffffff, 1 => 1;
    63: 0x29863404792eadd8, 0x65bb8667cd468425 => 0x2182040449068400;
    64: 0x8000000000000000, 0x488 => 0;
    127: 0x7fffffffffffffffffffffffffffffff, 1 => 1;
    127: 0x3eb7bd10aef7d22cdca39a4b7eafba6f, 683 => 555;
    128: 0x80000000000000000000000000000000, 485 => 0;
};

/// Two values and their bitwise or.
pub const ORS: [(u8, u128, u128, u128); 10] = rows! {
    1: 1, 1 => 1;
    7: 127, 1 => 127;
    7: 23, 21 => 23;
    8: 128, 101 => 229;
    63: 0x7fffffffffffffff, 1 => 0x7fffffffffffffff;
    63: 0x29863404792eadd8, 0x65bb8667cd468425 => 0x6dbfb667fd6eadfd;
    64: 0x8000000000000000, 0x488 => 0x8000000000000488;
    127: 0x7fffffffffffffffffffffffffffffff, 1 => 0x7fffffffffffffffffffffffffffffff;
    127: 0x3eb7bd10aef7d22cdca39a4b7eafba6f, 683 => 0x3eb7bd10aef7d22cdca39a4b7eafbaef;
    128: 0x80000000000000000000000000000000, 485 => 0x800000000000000000000000000001e5;
};

/// Two values and their bitwise exclusive or.
pub const XORS: [(u8, u128, u128, u128); 10] = rows! {
    1: 1, 1 => 0;
    7: 127, 1 => 126;
    7: 23, 21 => 2;
    8: 128, 101 => 229;
    63: 0x7fffffffffffffff, 1 => 0x7ffffffffffffffe;
    63: 0x29863404792eadd8, 0x65bb8667cd468425 => 0x4c3db263b46829fd;
    64: 0x8000000000000000, 0x488 => 0x8000000000000488;
    127: 0x7fffffffffffffffffffffffffffffff, 1 => 0x7ffffffffffffffffffffffffffffffe;
    127: 0x3eb7bd10aef7d22cdca39a4b7eafba6f, 683 => 0x3eb7bd10aef7d22cdca39a4b7eafb8c4;
    128: 0x80000000000000000000000000000000, 485 => 0x800000000000000000000000000001e5;
};

/// A value and its complement.
pub const NOTS: [(u8, u128, u128); 10] = rows! {
    1: 1 => 0;
    7: 1 => 126;
    7: 21 => 106;
    8: 101 => 154;
    63: 1 => 0x7ffffffffffffffe;
    63: 0x65bb8667cd468425 => 0x1a44799832b97bda;
    64: 0x488 => 0xfffffffffffffb77;
    127: 1 => 0x7ffffffffffffffffffffffffffffffe;
    127: 683 => 0x7ffffffffffffffffffffffffffffd54;
    128: 485 => 0xfffffffffffffffffffffffffffffe1a;
};

/// Whether the first value is less.
pub const LESS: [(u8, u128, u128, bool); 10] = rows! {
    1: 1, 1 => false;
    7: 127, 1 => false;
    7: 23, 21 => false;
    8: 128, 101 => false;
    63: 0x7fffffffffffffff, 1 => false;
    63: 0x29863404792eadd8, 0x65bb8667cd468425 => true;
    64: 0x8000000000000000, 0x488 => false;
    127: 0x7fffffffffffffffffffffffffffffff, 1 => false;
    127: 0x3eb7bd10aef7d22cdca39a4b7eafba6f, 683 => false;
    128: 0x80000000000000000000000000000000, 485 => false;
};

/// Whether the first value is less, both with their signs.
pub const LESS_SIGNED: [(u8, u128, u128, bool); 20] = rows! {
    1: 1, 1 => false;
    1: 1, 0 => true;
    7: 127, 1 => true;
    7: 64, 96 => true;
    7: 23, 21 => false;
    8: 255, 1 => true;
    8: 128, 101 => true;
    8: 140, 87 => true;
    63: 0x7fffffffffffffff, 1 => true;
    63: 0x4000000000000000, 0xcc8 => true;
    63: 0x29863404792eadd8, 0x65bb8667cd468425 => false;
    64: 0xffffffffffffffff, 1 => true;
    64: 0x8000000000000000, 0x488 => true;
    64: 0xcf7a5308f9432670, 0x939b6c3793c8102f => false;
    127: 0x7fffffffffffffffffffffffffffffff, 1 => true;
    127: 0x40000000000000000000000000000000, 0xc30 => true;
    127: 0x3eb7bd10aef7d22cdca39a4b7eafba6f, 683 => false;
    128: 0xffffffffffffffffffffffffffffffff, 1 => true;
    128: 0x80000000000000000000000000000000, 485 => true;
    128: 0x6131e7607c5f7f99f72efa9e1591800b, 0xd2f => false;
};

/// A value, a count, and the value shifted left by it.
pub const SHIFTED_LEFT: [(u8, u128, u128, u128); 29] = rows! {
    1: 1, 0 => 1;
    1: 1, 1 => 0;
    7: 115, 0 => 115;
    7: 115, 6 => 64;
    7: 115, 7 => 0;
    7: 57, 3 => 72;
    8: 171, 0 => 171;
    8: 171, 1 => 86;
    8: 171, 7 => 128;
    8: 171, 8 => 0;
    8: 171, 0xffffffffffffffffffffffffffffffff => 0;
    63: 0x591d00e16e93f782, 0 => 0x591d00e16e93f782;
    63: 0x591d00e16e93f782, 1 => 0x323a01c2dd27ef04;
    63: 0x591d00e16e93f782, 62 => 0;
    63: 0x591d00e16e93f782, 63 => 0;
    64: 0xd451770228f7f207, 0 => 0xd451770228f7f207;
    64: 0xd451770228f7f207, 1 => 0xa8a2ee0451efe40e;
    64: 0xd451770228f7f207, 63 => 0x8000000000000000;
    64: 0xd451770228f7f207, 64 => 0;
    64: 0x6a28bb81147bf903, 3 => 0x5145dc08a3dfc818;
    127: 0x4f24dffbceb156dd41bcb905bd009c88, 0 => 0x4f24dffbceb156dd41bcb905bd009c88;
    127: 0x4f24dffbceb156dd41bcb905bd009c88, 1 => 0x1e49bff79d62adba8379720b7a013910;
    127: 0x4f24dffbceb156dd41bcb905bd009c88, 126 => 0;
    127: 0x4f24dffbceb156dd41bcb905bd009c88, 127 => 0;
    128: 0xa7fe78c10fc83a579720f53bdd0ea4f8, 0 => 0xa7fe78c10fc83a579720f53bdd0ea4f8;
    128: 0xa7fe78c10fc83a579720f53bdd0ea4f8, 1 => 0x4ffcf1821f9074af2e41ea77ba1d49f0;
    128: 0xa7fe78c10fc83a579720f53bdd0ea4f8, 127 => 0;
    128: 0xa7fe78c10fc83a579720f53bdd0ea4f8, 128 => 0;
    128: 0xa7fe78c10fc83a579720f53bdd0ea4f8, 0xffffffffffffffffffffffffffffffff => 0;
};

/// A value, a count, and the value shifted right by it.
pub const SHIFTED_RIGHT: [(u8, u128, u128, u128); 29] = rows! {
    1: 1, 0 => 1;
    1: 1, 1 => 0;
    7: 85, 0 => 85;
    7: 85, 6 => 1;
    7: 85, 7 => 0;
    7: 42, 3 => 5;
    8: 208, 0 => 208;
    8: 208, 1 => 104;
    8: 208, 7 => 1;
    8: 208, 8 => 0;
    8: 208, 0xffffffffffffffffffffffffffffffff => 0;
    63: 0x50147536824e2a8f, 0 => 0x50147536824e2a8f;
    63: 0x50147536824e2a8f, 1 => 0x280a3a9b41271547;
    63: 0x50147536824e2a8f, 62 => 1;
    63: 0x50147536824e2a8f, 63 => 0;
    64: 0x8c3ab67f01a77ed6, 0 => 0x8c3ab67f01a77ed6;
    64: 0x8c3ab67f01a77ed6, 1 => 0x461d5b3f80d3bf6b;
    64: 0x8c3ab67f01a77ed6, 63 => 1;
    64: 0x8c3ab67f01a77ed6, 64 => 0;
    64: 0x461d5b3f80d3bf6b, 3 => 0x8c3ab67f01a77ed;
    127: 0x7d217acc638b7fabce5c9e35104570a0, 0 => 0x7d217acc638b7fabce5c9e35104570a0;
    127: 0x7d217acc638b7fabce5c9e35104570a0, 1 => 0x3e90bd6631c5bfd5e72e4f1a8822b850;
    127: 0x7d217acc638b7fabce5c9e35104570a0, 126 => 1;
    127: 0x7d217acc638b7fabce5c9e35104570a0, 127 => 0;
    128: 0xae91aac32bdcc40da9ab079e537ed142, 0 => 0xae91aac32bdcc40da9ab079e537ed142;
    128: 0xae91aac32bdcc40da9ab079e537ed142, 1 => 0x5748d56195ee6206d4d583cf29bf68a1;
    128: 0xae91aac32bdcc40da9ab079e537ed142, 127 => 1;
    128: 0xae91aac32bdcc40da9ab079e537ed142, 128 => 0;
    128: 0xae91aac32bdcc40da9ab079e537ed142, 0xffffffffffffffffffffffffffffffff => 0;
};

/// A value, a count, and the value shifted right by it with its sign.
pub const SHIFTED_SIGNED: [(u8, u128, u128, u128); 29] = rows! {
    1: 1, 0 => 1;
    1: 1, 1 => 1;
    7: 103, 0 => 103;
    7: 103, 6 => 127;
    7: 103, 7 => 127;
    7: 51, 3 => 6;
    8: 170, 0 => 170;
    8: 170, 1 => 213;
    8: 170, 7 => 255;
    8: 170, 8 => 255;
    8: 170, 0xffffffffffffffffffffffffffffffff => 255;
    63: 0x4185112ff51fb046, 0 => 0x4185112ff51fb046;
    63: 0x4185112ff51fb046, 1 => 0x60c28897fa8fd823;
    63: 0x4185112ff51fb046, 62 => 0x7fffffffffffffff;
    63: 0x4185112ff51fb046, 63 => 0x7fffffffffffffff;
    64: 0x82f534848814e037, 0 => 0x82f534848814e037;
    64: 0x82f534848814e037, 1 => 0xc17a9a42440a701b;
    64: 0x82f534848814e037, 63 => 0xffffffffffffffff;
    64: 0x82f534848814e037, 64 => 0xffffffffffffffff;
    64: 0x417a9a42440a701b, 3 => 0x82f534848814e03;
    127: 0x64e7f920f151b6bf1d788246b1d288a7, 0 => 0x64e7f920f151b6bf1d788246b1d288a7;
    127: 0x64e7f920f151b6bf1d788246b1d288a7, 1 => 0x7273fc9078a8db5f8ebc412358e94453;
    127: 0x64e7f920f151b6bf1d788246b1d288a7, 126 => 0x7fffffffffffffffffffffffffffffff;
    127: 0x64e7f920f151b6bf1d788246b1d288a7, 127 => 0x7fffffffffffffffffffffffffffffff;
    128: 0x95d4e1569ab14c8f40c23453d41cc83d, 0 => 0x95d4e1569ab14c8f40c23453d41cc83d;
    128: 0x95d4e1569ab14c8f40c23453d41cc83d, 1 => 0xcaea70ab4d58a647a0611a29ea0e641e;
    128: 0x95d4e1569ab14c8f40c23453d41cc83d, 127 => 0xffffffffffffffffffffffffffffffff;
    128: 0x95d4e1569ab14c8f40c23453d41cc83d, 128 => 0xffffffffffffffffffffffffffffffff;
    128: 0x95d4e1569ab14c8f40c23453d41cc83d, 0xffffffffffffffffffffffffffffffff => 0xffffffffffffffffffffffffffffffff;
};

/// A value, a width that is not less, and the value in it.
pub const EXTENDED: [(u8, u128, u8, u128); 23] = rows! {
    1: 1, 1 => 1;
    1: 1, 63 => 1;
    1: 1, 128 => 1;
    1: 0, 128 => 0;
    7: 69, 7 => 69;
    7: 65, 63 => 65;
    7: 78, 128 => 78;
    7: 27, 128 => 27;
    8: 226, 8 => 226;
    8: 192, 63 => 192;
    8: 154, 128 => 154;
    8: 92, 128 => 92;
    63: 0x5b2678238ac3bba2, 63 => 0x5b2678238ac3bba2;
    63: 0x6ae531838d7774e5, 128 => 0x6ae531838d7774e5;
    63: 0xefcc3c3e4164321, 128 => 0xefcc3c3e4164321;
    64: 0xa5464c0641636029, 64 => 0xa5464c0641636029;
    64: 0xe223615fb472597a, 128 => 0xe223615fb472597a;
    64: 0x4a3f0722606fccdb, 128 => 0x4a3f0722606fccdb;
    127: 0x762d1cb3c82a7ee245fdc312d4a94e08, 127 => 0x762d1cb3c82a7ee245fdc312d4a94e08;
    127: 0x421109bf24efec7ce28d85810b2b4fa1, 128 => 0x421109bf24efec7ce28d85810b2b4fa1;
    127: 0x33251bd9247ad6130d26caab7d6f9447, 128 => 0x33251bd9247ad6130d26caab7d6f9447;
    128: 0xdb9c674aed2e5a68c640d660ff9ae101, 128 => 0xdb9c674aed2e5a68c640d660ff9ae101;
    128: 0x4cf7489cbfa0a85d6949b7e5a01341b0, 128 => 0x4cf7489cbfa0a85d6949b7e5a01341b0;
};

/// A value, a width that is not less, and the value in it with its sign.
pub const EXTENDED_SIGNED: [(u8, u128, u8, u128); 23] = rows! {
    1: 1, 1 => 1;
    1: 1, 63 => 0x7fffffffffffffff;
    1: 1, 128 => 0xffffffffffffffffffffffffffffffff;
    1: 0, 128 => 0;
    7: 87, 7 => 87;
    7: 96, 63 => 0x7fffffffffffffe0;
    7: 84, 128 => 0xffffffffffffffffffffffffffffffd4;
    7: 24, 128 => 24;
    8: 219, 8 => 219;
    8: 159, 63 => 0x7fffffffffffff9f;
    8: 183, 128 => 0xffffffffffffffffffffffffffffffb7;
    8: 35, 128 => 35;
    63: 0x5bda1e1f0edd146b, 63 => 0x5bda1e1f0edd146b;
    63: 0x6dfe87d04ce7c6c2, 128 => 0xffffffffffffffffedfe87d04ce7c6c2;
    63: 0x3177c3cfa29ed6ba, 128 => 0x3177c3cfa29ed6ba;
    64: 0xaa4bcbbc644c060b, 64 => 0xaa4bcbbc644c060b;
    64: 0xafb1b51f9dae2e6f, 128 => 0xffffffffffffffffafb1b51f9dae2e6f;
    64: 0x2863c2d0f2ab14be, 128 => 0x2863c2d0f2ab14be;
    127: 0x54a87100e803db016dda1317b97c9fd8, 127 => 0x54a87100e803db016dda1317b97c9fd8;
    127: 0x7bc62e6c4ab587922dcddbf254293f55, 128 => 0xfbc62e6c4ab587922dcddbf254293f55;
    127: 0x132c9dbe94d7527c8e8defb88c4f5f80, 128 => 0x132c9dbe94d7527c8e8defb88c4f5f80;
    128: 0x9c35ca126c82d805f25db0f5568dfe9e, 128 => 0x9c35ca126c82d805f25db0f5568dfe9e;
    128: 0xe41dd1564f87469a7dd177b14360d35, 128 => 0xe41dd1564f87469a7dd177b14360d35;
};

/// A value, a width that is not greater, and that many low bits.
pub const CUTS: [(u8, u128, u8, u128); 19] = rows! {
    1: 1, 1 => 1;
    7: 102, 1 => 0;
    7: 102, 4 => 6;
    7: 102, 7 => 102;
    8: 132, 1 => 0;
    8: 132, 4 => 4;
    8: 132, 8 => 132;
    63: 0x49512186a0f9e642, 1 => 0;
    63: 0x49512186a0f9e642, 32 => 0xa0f9e642;
    63: 0x49512186a0f9e642, 63 => 0x49512186a0f9e642;
    64: 0xc80f7a0e50f3e5d7, 1 => 1;
    64: 0xc80f7a0e50f3e5d7, 32 => 0x50f3e5d7;
    64: 0xc80f7a0e50f3e5d7, 64 => 0xc80f7a0e50f3e5d7;
    127: 0x4efb58eed23b36319e30cf0081f8edaf, 1 => 1;
    127: 0x4efb58eed23b36319e30cf0081f8edaf, 64 => 0x9e30cf0081f8edaf;
    127: 0x4efb58eed23b36319e30cf0081f8edaf, 127 => 0x4efb58eed23b36319e30cf0081f8edaf;
    128: 0xe3c8af6a57c76d0c8b259cb541f14822, 1 => 0;
    128: 0xe3c8af6a57c76d0c8b259cb541f14822, 64 => 0x8b259cb541f14822;
    128: 0xe3c8af6a57c76d0c8b259cb541f14822, 128 => 0xe3c8af6a57c76d0c8b259cb541f14822;
};

/// A value, a place, a number of bits, and these bits from the place on.
pub const PARTS: [(u8, u128, u8, u8, u128); 19] = rows! {
    1: 1, 0, 1 => 1;
    7: 99, 0, 7 => 99;
    7: 99, 2, 3 => 0;
    7: 99, 6, 1 => 1;
    8: 243, 0, 8 => 243;
    8: 243, 2, 4 => 12;
    8: 243, 7, 1 => 1;
    63: 0x41cabed2250265d0, 0, 63 => 0x41cabed2250265d0;
    63: 0x41cabed2250265d0, 21, 31 => 0x55f69128;
    63: 0x41cabed2250265d0, 62, 1 => 1;
    64: 0xcd184a6506141679, 0, 64 => 0xcd184a6506141679;
    64: 0xcd184a6506141679, 21, 32 => 0xc2532830;
    64: 0xcd184a6506141679, 63, 1 => 1;
    127: 0x6a0aea7d6697622dd488a555f2aadb2e, 0, 127 => 0x6a0aea7d6697622dd488a555f2aadb2e;
    127: 0x6a0aea7d6697622dd488a555f2aadb2e, 42, 63 => 0x1f59a5d88b752229;
    127: 0x6a0aea7d6697622dd488a555f2aadb2e, 126, 1 => 1;
    128: 0xbad2a225b5d78407fcaa365baa0ac50f, 0, 128 => 0xbad2a225b5d78407fcaa365baa0ac50f;
    128: 0xbad2a225b5d78407fcaa365baa0ac50f, 42, 64 => 0x896d75e101ff2a8d;
    128: 0xbad2a225b5d78407fcaa365baa0ac50f, 127, 1 => 1;
};

/// A value, the width and value of a word, and the value above that word.
pub const JOINS: [(u8, u128, u8, u128, u128); 9] = rows! {
    1: 1, 1, 0 => 2;
    1: 1, 7, 109 => 237;
    1: 1, 127, 0x4e31217da567edd0938dba6a38f773b7 => 0xce31217da567edd0938dba6a38f773b7;
    7: 78, 64, 0x9d21430a27b7f30c => 0x4e9d21430a27b7f30c;
    8: 206, 7, 78 => 0x674e;
    63: 0x4c04a8a1c7543aad, 64, 0xd447186f30cf7069 => 0x4c04a8a1c7543aadd447186f30cf7069;
    64: 0x8310fc303566d19c, 63, 0x10ee0e220b0ebfd5 => 0x41887e181ab368ce10ee0e220b0ebfd5;
    64: 0x8fc46d0e27ff5659, 64, 0x4199e1c437f35138 => 0x8fc46d0e27ff56594199e1c437f35138;
    127: 0x59553929e67c2d11220a2731ef8882f2, 1, 0 => 0xb2aa7253ccf85a2244144e63df1105e4;
};
