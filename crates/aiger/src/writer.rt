// Writing a model as a file.

ghost use Rattle.std.specs.Prelude.{◌≡◌, ◌≤◌, [], ◌∷◌, ◌++◌, map, length, drop};
ghost use Rattle.text.specs.Number.{decimal};
ghost use Rattle.aiger.specs.Line.{Content, texts, header_text};
ghost use Rattle.aiger.specs.Format.{header_for, input_line, latch_line, gate_line, symbol_texts, answer_symbols, written, RoundTrip};
ghost use Rattle.aiger.specs.Writing.{put, answer_line, wrote, write_of};

use crate::fault::WriteFault;
use crate::line::Header;
use circuit::{Gate, Input, Latch, Model, Side};

// Writes the model's file to the front of the buffer, and returns its length. A refusal leaves the buffer as it was. What is
// written is read again as the same model.
pub fn write(model: &Model, buffer: &mut [u8]) -> Result<usize, WriteFault>
    ensures value { wrote result buffer.new ≡ write_of (written model.now.«record».now model.now.gates.now) buffer.old }
    ensures law { RoundTrip model.now.«record».now model.now.gates.now }
{
    let needed = emit(model, &mut []);
    if needed > buffer.len() {
        return Err(WriteFault::BufferShort);
    }
    Ok(emit(model, buffer))
}

// The length of the model's text, which is written where the buffer has room for it.
fn emit(model: &Model, buffer: &mut [u8]) -> usize
    ensures value { result ≡ length (written model.now.«record».now model.now.gates.now) }
    ensures after { result ≤ length buffer.old → buffer.new ≡ written model.now.«record».now model.now.gates.now ++ drop result buffer.old }
{
    let mut writer = Writer { buffer, at: 0 };
    writer.model(model);
    writer.at
}

fn header_of(model: &Model) -> Header
    ensures { result ≡ header_for model.now.«record».now }
{
    Header {
        maximum: model.maximum(),
        inputs: model.used_inputs().len() as u16,
        latches: model.latches() as u16,
        outputs: 1,
        gates: model.gates() as u16,
    }
}

// Puts text into a buffer. What finds no room is only counted, so a writer over no buffer measures a text.
#[derive(Drop)]
struct Writer<'a> {
    buffer: &'a mut [u8],
    at: usize,
}

impl<'a> Writer<'a> {
    fn byte(&mut self, b: u8)
        ensures { self.new ≡ put (b ∷ []) self.old }
    {
        if self.at < self.buffer.len() {
            self.buffer[self.at] = b;
        }
        self.at = self.at.saturating_add(1);
    }

    fn bytes(&mut self, text: &[u8])
        ensures { self.new ≡ put text.now self.old }
    {
        for b in text {
            self.byte(*b);
        }
    }

    // A number in decimal, by hand: the writer also measures what finds no room.
    fn number(&mut self, n: u16)
        ensures { self.new ≡ put (decimal n) self.old }
    {
        if n >= 10 {
            self.number(n / 10);
        }
        self.byte(b'0' + (n % 10) as u8);
    }

    // A number, and the byte that ends it.
    fn field(&mut self, n: u16, end: u8)
        ensures { self.new ≡ put (decimal n ++ end ∷ []) self.old }
    {
        self.number(n);
        self.byte(end);
    }

    fn header(&mut self, header: Header)
        ensures { self.new ≡ put (header_text header ++ 10 ∷ []) self.old }
    {
        self.bytes(b"aag ");
        self.field(header.maximum, b' ');
        self.field(header.inputs, b' ');
        self.field(header.latches, b' ');
        self.field(header.outputs, b' ');
        self.field(header.gates, b'\n');
    }

    fn lines<T: Line>(&mut self, items: &[T])
        ensures { self.new ≡ put (texts (map T.line items.now)) self.old }
    {
        for item in items {
            item.write(self);
        }
    }

    // Names the input at a position as one that the host sets.
    fn symbol(&mut self, position: u16)
        ensures { self.new ≡ put (texts (answer_line position ∷ [])) self.old }
    {
        self.byte(b'i');
        self.field(position, b' ');
        self.bytes(b"controllable_");
        self.field(position, b'\n');
    }

    // A symbol for each input that the host sets, by its position among all of them.
    fn symbols(&mut self, inputs: &[Input])
        requires { length inputs.now ≤ 24 }
        ensures { self.new ≡ put (symbol_texts (answer_symbols 0 inputs.now)) self.old }
    {
        for (position, input) in inputs.iter().enumerate() {
            if input.side == Side::Answer {
                self.symbol(position as u16);
            }
        }
    }

    fn model(&mut self, model: &Model)
        ensures { self.new ≡ put (written model.now.«record».now model.now.gates.now) self.old }
    {
        self.header(header_of(model));
        self.lines(model.used_inputs());
        self.lines(model.used_latches());
        self.field(model.output().code, b'\n');
        self.lines(model.used_gates());
        self.symbols(model.used_inputs());
    }
}

// A part of a model that has a line of its own.
trait Line {
    ghost line: { Self → Content };

    fn write(&self, writer: &mut Writer<'_>)
        ensures { writer.new ≡ put (texts (line self.now ∷ [])) writer.old };
}

impl Line for Input {
    ghost line = { λ i. input_line i.literal };

    fn write(&self, writer: &mut Writer<'_>) {
        writer.field(self.literal.code, b'\n');
    }
}

impl Line for Latch {
    ghost line = { latch_line };

    fn write(&self, writer: &mut Writer<'_>) {
        writer.field(self.literal.code, b' ');
        writer.field(self.next.code, b'\n');
    }
}

impl Line for Gate {
    ghost line = { gate_line };

    fn write(&self, writer: &mut Writer<'_>) {
        writer.field(self.output.code, b' ');
        writer.field(self.left.code, b' ');
        writer.field(self.right.code, b'\n');
    }
}
