// Writes the lines of answers and sheets.
ghost use Rattle.std.specs.Prelude.{◌≡◌, ℕ, ◌+◌, ◌^◌, ◌<◌, ◌≤◌, List, [], ◌∷◌, ◌++◌, length};
ghost use Rattle.std.specs.List.{AllByRecursion};
ghost use Rattle.arrayvec.specs.ArrayString.{array_string_len};
ghost use Rattle.lines.specs.Output.{Inside, Filled, printed, AnswerLine, SheetLine};

use arrayvec::ArrayString;
use itoa::{Buffer, Integer};
use ledger::books::Holding;
use ledger::cells::Quote;
use ledger::faults::Fault;

// The text of a line, byte 10, and then zeros: the published form of a line, and so an array.
#[derive(Clone, Copy)]
pub struct OutputLine {
    bytes: [u8; 64],
}

// A line while it is written. Byte 10 has room behind it.
type Text = ArrayString<63>;

impl OutputLine {
    // The line of a text.
    fn of(text: &Text) -> OutputLine
        ensures { AllByRecursion Inside text.now.bytes → Filled text.now.bytes result.bytes }
    {
        let text = text.as_str().as_bytes();
        let mut bytes = [0; 64];
        bytes[..text.len()].copy_from_slice(text);
        bytes[text.len()] = b'\n';
        OutputLine { bytes }
    }

    // The line with its byte 10, and without the zeros.
    pub fn as_bytes(&self) -> &[u8]
        ensures part { result.now ≡ printed self.now.bytes }
        ensures line { (text : List ℕ) → Filled text self.now.bytes → result.now ≡ text ++ 10 ∷ [] }
    {
        match self.bytes.iter().position(|b| *b == b'\n') {
            Some(end) => &self.bytes[..=end],
            None => &self.bytes,
        }
    }
}

// A space and a number, behind the text. Pushed, since `write!` may fail as far as its contract says.
fn push_field<I: Integer>(text: &mut Text, n: I)
    requires { array_string_len text.old + I.MAX_STR_LEN < 63 }
    ensures bytes { text.new.bytes ≡ text.old.bytes ++ 32 ∷ I.text n }
    ensures len { array_string_len text.new ≡ array_string_len text.old + length (I.text n) + 1 }
    ensures short { length (I.text n) ≤ I.MAX_STR_LEN }
{
    text.push(' ');
    text.push_str(Buffer::new().format(n));
}

// The line of an answer.
pub fn answer_line(answer: Result<Quote, Fault>) -> OutputLine
    ensures { AnswerLine answer result.bytes }
{
    let mut text = Text::new();
    match answer {
        Ok(_) => text.push_str("ok"),
        Err(fault) => {
            text.push_str("no");
            push_field(&mut text, u8::from(fault.reason));
            push_field(&mut text, fault.depth);
            push_field(&mut text, fault.spot);
        }
    }
    OutputLine::of(&text)
}

// A series below this has at most 19 digits, so that its line fits.
const SERIES_END: usize = 10_000_000_000_000_000_000;

// The line of a held cell. It is empty for a series that no cell has and that may not fit.
pub fn sheet_line(h: Holding) -> OutputLine
    ensures line { h.series < 10 ^ 19 → SheetLine h result.bytes }
    ensures empty { 10 ^ 19 ≤ h.series → Filled [] result.bytes }
{
    let mut text = Text::new();
    if h.series < SERIES_END {
        text.push_str("p");
        push_field(&mut text, h.account);
        push_field(&mut text, h.series);
        push_field(&mut text, h.held);
    }
    OutputLine::of(&text)
}
