// Reads the lines of instructions.
ghost use Rattle.std.specs.Prelude.{◌≡◌};
ghost use Rattle.lines.specs.Lines.{Answered, amount_kind};

use crate::fields::{Kind, Reader};
use ledger::actions::Action;
use ledger::cells::Instruction;
use ledger::faults::Fault;

// Only the amount of a fill may have a sign.
fn amount_kind(action: Action) -> Kind
    ensures { result ≡ amount_kind action }
{
    match action {
        Action::Fill => Kind::Signed,
        _ => Kind::Plain,
    }
}

// The instruction of a line, or the column of the first byte that does not fit.
pub fn read_line(line: &[u8]) -> Result<Instruction, Fault>
    ensures { Answered line.now result }
{
    let [letter, rest @ ..] = line else {
        return Err(Fault::misfit(0));
    };
    let Ok(action) = Action::try_from(*letter as char) else {
        return Err(Fault::misfit(0));
    };
    // A line is refused where its first bad field stops, so each field has its own let-else.
    let mut fields = Reader { rest, column: 1 };
    let Some(account) = fields.field(Kind::Plain) else {
        return Err(Fault::misfit(fields.column));
    };
    let Some(series) = fields.field(Kind::Plain) else {
        return Err(Fault::misfit(fields.column));
    };
    let Some(amount) = fields.field(amount_kind(action)) else {
        return Err(Fault::misfit(fields.column));
    };
    let [] = fields.rest else {
        return Err(Fault::misfit(fields.column));
    };
    Ok(Instruction {
        action,
        account: account as usize,
        series: series as usize,
        amount,
    })
}
