//! Whole texts, and lines of others; the expected values were computed from the rules apart from the program.
use made_input::{design_text, made_line, trace_text};
use std::test::Fail;

const DESIGN_0: &[u8] =
    b"module made(clk, a, b, y, z);\ninput clk;\ninput [7:0] a, b;\noutput [7:0] y, z;\nreg [7:0] r1, r2, r3;\nassign z = a ^ b;\nassign y = r3;\nalways @(posedge clk) begin\nr1 <= a + b;\nr2 <= r1 - 8'd5;\nr3 <= r2 + 8'd7;\nend\nendmodule\n";

const TRACE_0: &[u8] =
    b"$timescale 1ns $end\n$scope module made $end\n$var wire 1 ! clk $end\n$var wire 8 \" a $end\n$var wire 8 # b $end\n$var wire 8 $ y $end\n$var wire 8 % z $end\n$upscope $end\n$enddefinitions $end\n#0\n0!\nb00111001 \"\nb01111110 #\nb00000000 $\nb01000111 %\n#5\n1!\n#10\n0!\nb11011111 \"\nb00101100 #\nb00000111 $\nb11110011 %\n#15\n1!\n#20\n0!\nb11110101 \"\nb10001010 #\nb00001100 $\nb01111111 %\n#25\n1!\n#30\n0!\nb11111011 \"\nb00011000 #\nb11000011 $\nb11100011 %\n#35\n1!\n#40\n0!\nb01110001 \"\nb01010110 #\nb00010111 $\nb00100111 %\n#45\n1!\n#50\n0!\nb11010111 \"\nb11000100 #\nb10001011 $\nb00010011 %\n#55\n1!\n#60\n0!\nb10101101 \"\nb11100010 #\nb00011111 $\nb01001111 %\n#65\n1!\n";

#[test]
fn the_texts_of_the_number_0(rt: HostRuntime) -> Result<(), Fail> {
    assert_eq!(rt; design_text(rt.alloc(), 0)?.as_slice(), DESIGN_0);
    assert_eq!(rt; trace_text(rt.alloc(), 0)?.as_slice(), TRACE_0);
    Ok(())
}

/// A number with the line that is printed of it, and the lengths of its texts.
const MADE: [(u32, &str, usize, usize); 3] = [
    (0, "made 0 stages 3 width 8 cycles 7\n", 222, 618),
    (7, "made 7 stages 10 width 15 cycles 14\n", 390, 1456),
    (9999, "made 9999 stages 12 width 32 cycles 16\n", 442, 2728),
];

#[test]
fn the_numbers_of_some(rt: HostRuntime) -> Result<(), Fail> {
    for (number, line, design, trace) in MADE {
        assert_eq!(rt; made_line(rt.alloc(), number)?.as_slice(), line.as_bytes());
        assert_eq!(rt; design_text(rt.alloc(), number)?.len(), design);
        assert_eq!(rt; trace_text(rt.alloc(), number)?.len(), trace);
    }
    Ok(())
}
