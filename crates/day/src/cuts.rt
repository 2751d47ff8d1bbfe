// A text cut into lines.
ghost use Rattle.std.specs.Prelude.{◌≡◌, map, IfOk};
ghost use Rattle.day.specs.Cuts.{Cut, without_end};

use std::alloc::{AllocError, Global};

// A line without its byte 10.
fn trimmed(line: &[u8]) -> &[u8]
    ensures { result.now ≡ without_end line.now }
{
    line.strip_suffix(b"\n").unwrap_or(line)
}

// Every line, without its byte 10.
pub fn cut_lines<'a>(heap: Global, text: &'a [u8]) -> Result<Vec<&'a [u8]>, AllocError>
    ensures { IfOk result (λ v. Cut text.now (map (λ x. x.now) v.items)) }
{
    text.split_inclusive(|b| *b == b'\n')
        .map(trimmed)
        .collect(heap)
}
