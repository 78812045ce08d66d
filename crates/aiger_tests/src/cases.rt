// Files and what reading them answers, worked out by hand from the rules of the format.

// A file, and the number and the line of its refusal.
pub struct Case {
    pub file: &'static [u8],
    pub number: u8,
    pub line: u32,
}

pub static ACCEPTED: [&[u8]; 12] = [
    // 32 latches
    b"aag 32 0 32 1 0\n2 2\n4 4\n6 6\n8 8\n10 10\n12 12\n14 14\n16 16\n18 18\n20 20\n22 22\n24 24\n26 26\n28 28\n30 30\n32 32\n34 34\n36 36\n38 38\n40 40\n42 42\n44 44\n46 46\n48 48\n50 50\n52 52\n54 54\n56 56\n58 58\n60 60\n62 62\n64 64\n0\n",
    // a model with one latch
    b"aag 4 2 1 1 1\n2\n4\n6 5\n8\n8 6 2\ni1 controllable_c\n",
    // no symbols
    b"aag 4 2 1 1 1\n2\n4\n6 5\n8\n8 6 2\n",
    // a comment line and nothing after it
    b"aag 4 2 1 1 1\n2\n4\n6 5\n8\n8 6 2\nc\n",
    // anything after a comment line
    b"aag 4 2 1 1 1\n2\n4\n6 5\n8\n8 6 2\nc\nanything\xff without an end",
    // symbols in any order; a name may begin with a space
    b"aag 4 2 1 1 1\n2\n4\n6 5\n8\n8 6 2\no0 bad\nl0 held\ni1  a\ni0 \t\n",
    // nothing but an output
    b"aag 0 0 0 1 0\n0\n",
    // a constant output
    b"aag 0 0 0 1 0\n1\n",
    // more variables than are used
    b"aag 4096 0 0 1 0\n0\n",
    // constant operands
    b"aag 1 0 0 1 1\n2\n2 1 0\n",
    // opposite operands, a negated output
    b"aag 2 1 0 1 1\n2\n5\n4 2 3\n",
    // 12 event inputs and one answer input
    b"aag 13 13 0 1 0\n2\n4\n6\n8\n10\n12\n14\n16\n18\n20\n22\n24\n26\n0\ni0 controllable_a\n",
];

pub static HEADERS: [Case; 28] = [
    // an empty file
    Case {
        file: b"",
        number: 2,
        line: 1,
    },
    // a header without a line feed
    Case {
        file: b"aag 4 2 1 1 1",
        number: 2,
        line: 1,
    },
    // four numbers
    Case {
        file: b"aag 4 2 1 1\n2\n",
        number: 2,
        line: 1,
    },
    // six numbers
    Case {
        file: b"aag 4 2 1 1 1 0\n2\n",
        number: 2,
        line: 1,
    },
    // a trailing space
    Case {
        file: b"aag 4 2 1 1 1 \n2\n",
        number: 2,
        line: 1,
    },
    // two spaces
    Case {
        file: b"aag  4 2 1 1 1\n2\n",
        number: 2,
        line: 1,
    },
    // two spaces between numbers
    Case {
        file: b"aag 4 2  1 1 1\n2\n",
        number: 2,
        line: 1,
    },
    // the binary form's word
    Case {
        file: b"aig 4 2 1 1 1\n2\n",
        number: 2,
        line: 1,
    },
    // capital letters
    Case {
        file: b"AAG 4 2 1 1 1\n2\n",
        number: 2,
        line: 1,
    },
    // a leading space
    Case {
        file: b" aag 4 2 1 1 1\n2\n",
        number: 2,
        line: 1,
    },
    // a tab
    Case {
        file: b"aag\t4 2 1 1 1\n2\n",
        number: 2,
        line: 1,
    },
    // a leading zero
    Case {
        file: b"aag 04 2 1 1 1\n2\n",
        number: 2,
        line: 1,
    },
    // a number over 65,535
    Case {
        file: b"aag 65536 0 0 1 0\n0\n",
        number: 2,
        line: 1,
    },
    // a number that is 4 modulo 2^32
    Case {
        file: b"aag 4294967300 2 1 1 1\n2\n",
        number: 2,
        line: 1,
    },
    // a carriage return
    Case {
        file: b"aag 4 2 1 1 1\r\n2\n",
        number: 2,
        line: 1,
    },
    // a sign
    Case {
        file: b"aag 4 -2 1 1 1\n2\n",
        number: 2,
        line: 1,
    },
    // a letter for a number
    Case {
        file: b"aag 4 2 1 1 x\n2\n",
        number: 2,
        line: 1,
    },
    // M over 4,096
    Case {
        file: b"aag 4097 0 0 1 0\n0\n",
        number: 3,
        line: 1,
    },
    // 65,535 is a number, and too large
    Case {
        file: b"aag 65535 0 0 1 0\n0\n",
        number: 3,
        line: 1,
    },
    // 25 inputs
    Case {
        file: b"aag 25 25 0 1 0\n0\n",
        number: 3,
        line: 1,
    },
    // 33 latches
    Case {
        file: b"aag 33 0 33 1 0\n0\n",
        number: 3,
        line: 1,
    },
    // no output
    Case {
        file: b"aag 4 2 1 0 1\n2\n",
        number: 3,
        line: 1,
    },
    // two outputs
    Case {
        file: b"aag 4 2 1 2 1\n2\n",
        number: 3,
        line: 1,
    },
    // 2,049 gates
    Case {
        file: b"aag 4096 0 0 1 2049\n0\n",
        number: 3,
        line: 1,
    },
    // fewer variables than things
    Case {
        file: b"aag 3 2 1 1 1\n2\n",
        number: 3,
        line: 1,
    },
    // sizes come before the table
    Case {
        file: b"aag 2 0 0 1 3\n0\n",
        number: 3,
        line: 1,
    },
    // three gates for a table of two
    Case {
        file: b"aag 3 0 0 1 3\n0\n2 0 0\n4 0 0\n6 0 0\n",
        number: 4,
        line: 1,
    },
    // the table comes before the lines
    Case {
        file: b"aag 3 0 0 1 3\n",
        number: 4,
        line: 1,
    },
];

pub static LINES: [Case; 21] = [
    // an absent input
    Case {
        file: b"aag 1 1 0 1 0\n",
        number: 5,
        line: 2,
    },
    // an input without a line feed
    Case {
        file: b"aag 1 1 0 1 0\n2",
        number: 5,
        line: 2,
    },
    // a trailing space after an input
    Case {
        file: b"aag 1 1 0 1 0\n2 \n0\n",
        number: 5,
        line: 2,
    },
    // a leading zero in an input
    Case {
        file: b"aag 1 1 0 1 0\n02\n0\n",
        number: 5,
        line: 2,
    },
    // a carriage return after an input
    Case {
        file: b"aag 1 1 0 1 0\n2\r\n0\n",
        number: 5,
        line: 2,
    },
    // an empty line
    Case {
        file: b"aag 1 1 0 1 0\n\n0\n",
        number: 5,
        line: 2,
    },
    // an input over 65,535
    Case {
        file: b"aag 1 1 0 1 0\n65536\n0\n",
        number: 5,
        line: 2,
    },
    // an input that is 2 modulo 2^16
    Case {
        file: b"aag 1 1 0 1 0\n65538\n0\n",
        number: 5,
        line: 2,
    },
    // two numbers for an input
    Case {
        file: b"aag 1 1 0 1 0\n2 2\n0\n",
        number: 5,
        line: 2,
    },
    // a symbol before its time
    Case {
        file: b"aag 1 1 0 1 0\ni0 x\n2\n0\n",
        number: 5,
        line: 2,
    },
    // a comment before its time
    Case {
        file: b"aag 1 1 0 1 0\nc\n",
        number: 5,
        line: 2,
    },
    // one number for a latch
    Case {
        file: b"aag 1 0 1 1 0\n2\n2\n",
        number: 5,
        line: 2,
    },
    // two spaces in a latch
    Case {
        file: b"aag 1 0 1 1 0\n2  2\n2\n",
        number: 5,
        line: 2,
    },
    // three numbers for a latch
    Case {
        file: b"aag 1 0 1 1 0\n2 2 0\n2\n",
        number: 5,
        line: 2,
    },
    // an absent output
    Case {
        file: b"aag 1 1 0 1 0\n2\n",
        number: 5,
        line: 3,
    },
    // two numbers for an output
    Case {
        file: b"aag 1 1 0 1 0\n2\n2 0\n",
        number: 5,
        line: 3,
    },
    // an absent gate
    Case {
        file: b"aag 4 2 1 1 1\n2\n4\n6 5\n8\n",
        number: 5,
        line: 6,
    },
    // two numbers for a gate
    Case {
        file: b"aag 4 2 1 1 1\n2\n4\n6 5\n8\n8 6\n",
        number: 5,
        line: 6,
    },
    // four numbers for a gate
    Case {
        file: b"aag 4 2 1 1 1\n2\n4\n6 5\n8\n8 6 2 2\n",
        number: 5,
        line: 6,
    },
    // a gate without a line feed
    Case {
        file: b"aag 4 2 1 1 1\n2\n4\n6 5\n8\n8 6 2",
        number: 5,
        line: 6,
    },
    // a gate's form comes before a latch's operand
    Case {
        file: b"aag 3 0 1 1 1\n2 6\n2\n4 2\n",
        number: 5,
        line: 4,
    },
];

pub static LITERALS: [Case; 25] = [
    // an input of 65,535
    Case {
        file: b"aag 1 1 0 1 0\n65535\n0\n",
        number: 6,
        line: 2,
    },
    // an odd input
    Case {
        file: b"aag 1 1 0 1 0\n3\n0\n",
        number: 6,
        line: 2,
    },
    // an input of 0
    Case {
        file: b"aag 1 1 0 1 0\n0\n0\n",
        number: 6,
        line: 2,
    },
    // an input of 1
    Case {
        file: b"aag 1 1 0 1 0\n1\n0\n",
        number: 6,
        line: 2,
    },
    // an input over 2M + 1
    Case {
        file: b"aag 1 1 0 1 0\n4\n0\n",
        number: 6,
        line: 2,
    },
    // an odd latch
    Case {
        file: b"aag 1 0 1 1 0\n3 2\n2\n",
        number: 6,
        line: 2,
    },
    // a next literal over 2M + 1
    Case {
        file: b"aag 1 0 1 1 0\n2 4\n2\n",
        number: 6,
        line: 2,
    },
    // an output over 2M + 1
    Case {
        file: b"aag 1 1 0 1 0\n2\n4\n",
        number: 6,
        line: 3,
    },
    // an odd gate
    Case {
        file: b"aag 1 0 0 1 1\n2\n3 0 0\n",
        number: 6,
        line: 3,
    },
    // a gate of 0
    Case {
        file: b"aag 1 0 0 1 1\n0\n0 0 0\n",
        number: 6,
        line: 3,
    },
    // an operand over 2M + 1
    Case {
        file: b"aag 1 0 0 1 1\n2\n2 4 0\n",
        number: 6,
        line: 3,
    },
    // a literal too large comes before one defined twice
    Case {
        file: b"aag 2 1 1 1 0\n2\n2 6\n0\n",
        number: 6,
        line: 3,
    },
    // an input defined twice
    Case {
        file: b"aag 2 2 0 1 0\n2\n2\n0\n",
        number: 7,
        line: 3,
    },
    // a latch that is an input
    Case {
        file: b"aag 2 1 1 1 0\n2\n2 0\n0\n",
        number: 7,
        line: 3,
    },
    // a gate that is an input
    Case {
        file: b"aag 2 1 0 1 1\n2\n2\n2 0 0\n",
        number: 7,
        line: 4,
    },
    // a gate defined twice
    Case {
        file: b"aag 2 0 0 1 2\n0\n2 0 0\n2 0 0\n",
        number: 7,
        line: 4,
    },
    // defined twice comes before an operand
    Case {
        file: b"aag 2 1 0 1 1\n2\n2\n2 4 0\n",
        number: 7,
        line: 4,
    },
    // a gate that uses itself
    Case {
        file: b"aag 1 0 0 1 1\n2\n2 2 0\n",
        number: 8,
        line: 3,
    },
    // a gate that uses a later one
    Case {
        file: b"aag 2 0 0 1 2\n2\n2 4 0\n4 0 0\n",
        number: 8,
        line: 3,
    },
    // an operand that nothing defines
    Case {
        file: b"aag 3 1 0 1 1\n2\n4\n4 2 6\n",
        number: 8,
        line: 4,
    },
    // a next literal that nothing defines
    Case {
        file: b"aag 2 0 1 1 0\n2 4\n2\n",
        number: 8,
        line: 2,
    },
    // the second latch's next literal
    Case {
        file: b"aag 3 0 2 1 0\n2 2\n4 6\n2\n",
        number: 8,
        line: 3,
    },
    // an output that nothing defines
    Case {
        file: b"aag 2 1 0 1 0\n2\n4\n",
        number: 8,
        line: 3,
    },
    // latches come before the output
    Case {
        file: b"aag 3 0 1 1 0\n2 4\n6\n",
        number: 8,
        line: 2,
    },
    // operands come before symbols
    Case {
        file: b"aag 2 0 1 1 0\n2 4\n2\nx\n",
        number: 8,
        line: 2,
    },
];

pub static SYMBOLS: [Case; 24] = [
    // another letter
    Case {
        file: b"aag 4 2 1 1 1\n2\n4\n6 5\n8\n8 6 2\nx0 a\n",
        number: 9,
        line: 7,
    },
    // no name
    Case {
        file: b"aag 4 2 1 1 1\n2\n4\n6 5\n8\n8 6 2\ni1\n",
        number: 9,
        line: 7,
    },
    // an empty name
    Case {
        file: b"aag 4 2 1 1 1\n2\n4\n6 5\n8\n8 6 2\ni1 \n",
        number: 9,
        line: 7,
    },
    // an input out of range
    Case {
        file: b"aag 4 2 1 1 1\n2\n4\n6 5\n8\n8 6 2\ni2 a\n",
        number: 9,
        line: 7,
    },
    // a latch out of range
    Case {
        file: b"aag 4 2 1 1 1\n2\n4\n6 5\n8\n8 6 2\nl1 a\n",
        number: 9,
        line: 7,
    },
    // an output out of range
    Case {
        file: b"aag 4 2 1 1 1\n2\n4\n6 5\n8\n8 6 2\no1 a\n",
        number: 9,
        line: 7,
    },
    // an input named twice
    Case {
        file: b"aag 4 2 1 1 1\n2\n4\n6 5\n8\n8 6 2\ni0 a\ni0 b\n",
        number: 9,
        line: 8,
    },
    // a latch named twice
    Case {
        file: b"aag 4 2 1 1 1\n2\n4\n6 5\n8\n8 6 2\nl0 a\nl0 a\n",
        number: 9,
        line: 8,
    },
    // an output named twice
    Case {
        file: b"aag 4 2 1 1 1\n2\n4\n6 5\n8\n8 6 2\no0 a\no0 a\n",
        number: 9,
        line: 8,
    },
    // a leading zero in a position
    Case {
        file: b"aag 4 2 1 1 1\n2\n4\n6 5\n8\n8 6 2\ni01 a\n",
        number: 9,
        line: 7,
    },
    // a symbol without a line feed
    Case {
        file: b"aag 4 2 1 1 1\n2\n4\n6 5\n8\n8 6 2\ni1 a",
        number: 9,
        line: 7,
    },
    // a comment without a line feed
    Case {
        file: b"aag 4 2 1 1 1\n2\n4\n6 5\n8\n8 6 2\nc",
        number: 9,
        line: 7,
    },
    // a comment line that is not alone
    Case {
        file: b"aag 4 2 1 1 1\n2\n4\n6 5\n8\n8 6 2\nc \n",
        number: 9,
        line: 7,
    },
    // a carriage return after the comment's letter
    Case {
        file: b"aag 4 2 1 1 1\n2\n4\n6 5\n8\n8 6 2\nc\r\n",
        number: 9,
        line: 7,
    },
    // an empty line among the symbols
    Case {
        file: b"aag 4 2 1 1 1\n2\n4\n6 5\n8\n8 6 2\n\n",
        number: 9,
        line: 7,
    },
    // a position over 65,535
    Case {
        file: b"aag 4 2 1 1 1\n2\n4\n6 5\n8\n8 6 2\ni65536 a\n",
        number: 9,
        line: 7,
    },
    // a capital letter
    Case {
        file: b"aag 4 2 1 1 1\n2\n4\n6 5\n8\n8 6 2\nI1 a\n",
        number: 9,
        line: 7,
    },
    // one gate too many
    Case {
        file: b"aag 4 2 1 1 1\n2\n4\n6 5\n8\n8 6 2\n8 6 2\n",
        number: 9,
        line: 7,
    },
    // a space before the position
    Case {
        file: b"aag 4 2 1 1 1\n2\n4\n6 5\n8\n8 6 2\ni 1 a\n",
        number: 9,
        line: 7,
    },
    // a second symbol that breaks off
    Case {
        file: b"aag 4 2 1 1 1\n2\n4\n6 5\n8\n8 6 2\ni0 a\ni1",
        number: 9,
        line: 8,
    },
    // 13 event inputs
    Case {
        file: b"aag 13 13 0 1 0\n2\n4\n6\n8\n10\n12\n14\n16\n18\n20\n22\n24\n26\n0\n",
        number: 10,
        line: 1,
    },
    // 13 answer inputs
    Case {
        file: b"aag 13 13 0 1 0\n2\n4\n6\n8\n10\n12\n14\n16\n18\n20\n22\n24\n26\n0\ni0 controllable_\ni1 controllable_\ni2 controllable_\ni3 controllable_\ni4 controllable_\ni5 controllable_\ni6 controllable_\ni7 controllable_\ni8 controllable_\ni9 controllable_\ni10 controllable_\ni11 controllable_\ni12 controllable_\n",
        number: 10,
        line: 1,
    },
    // a name that breaks off before its underscore
    Case {
        file: b"aag 13 13 0 1 0\n2\n4\n6\n8\n10\n12\n14\n16\n18\n20\n22\n24\n26\n0\ni0 controllable\n",
        number: 10,
        line: 1,
    },
    // symbols come before sides
    Case {
        file: b"aag 13 13 0 1 0\n2\n4\n6\n8\n10\n12\n14\n16\n18\n20\n22\n24\n26\n0\ni0 a\ni0 a\n",
        number: 9,
        line: 17,
    },
];

// What yosys 0.23 wrote of models/windows.v, by
// yosys -p 'read_verilog windows.v; synth -flatten -top windows; dffunmap; aigmap; write_aiger -ascii -symbols windows.aag'
pub static TOOL: &[u8] =
    b"aag 16 7 2 1 7\n2\n4\n6\n8\n10\n12\n14\n16 25\n18 31\n32\n20 16 9\n22 12 4\n24 23 21\n26 18 11\n28 14 6\n30 29 27\n32 18 16\ni0 clk\ni1 ask_a\ni2 ask_b\ni3 back_a\ni4 back_b\ni5 controllable_grant_a\ni6 controllable_grant_b\nl0 holds_a\nl1 holds_b\no0 bad\nc\nGenerated by Yosys 0.23 (git sha1 7ce5011c24b)\n";

// The same model as it is written here: its lines, and a symbol for each answer input.
pub static TOOL_WRITTEN: &[u8] =
    b"aag 16 7 2 1 7\n2\n4\n6\n8\n10\n12\n14\n16 25\n18 31\n32\n20 16 9\n22 12 4\n24 23 21\n26 18 11\n28 14 6\n30 29 27\n32 18 16\ni5 controllable_5\ni6 controllable_6\n";
