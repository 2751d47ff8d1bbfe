// The fields of a line, one after another: a space and a number each.
ghost use Rattle.std.specs.Prelude.{◌≡◌, ◌+◌, ◌^◌, ◌<◌, ◌≤◌, take, length, pos, take_while};
ghost use Rattle.std.specs.List.{AllByRecursion};
ghost use Rattle.std.specs.Char.{is_ascii_digit};
ghost use Rattle.lines.specs.Fields.{Digit, value};

// What a field takes: a number without a sign, or one that may have a minus sign. Kinds and not closures that read, since
// the definition of a line lists the kinds of its fields.
#[derive(Clone, Copy)]
pub(crate) enum Kind {
    Plain,
    Signed,
}

// A number has at most so many digits.
const MOST_DIGITS: usize = 18;

// How many digits s begins with, counted up to the most that a number has.
fn count_digits(s: &[u8]) -> usize
    ensures { result ≡ length (take 18 (take_while is_ascii_digit s.now)) }
{
    s.iter()
        .take_while(|b| b.is_ascii_digit())
        .take(MOST_DIGITS)
        .count()
}

// The number that at most 18 digits stand for. Not by `parse`: it takes a text, so that the bytes are looked through once more,
// and a line takes twice as long.
fn decimal(digits: &[u8]) -> i64
    requires few { length digits.now ≤ 18 }
    requires all { AllByRecursion Digit digits.now }
    ensures { result ≡ pos (value digits.now) }
{
    let mut n = 0u64;
    for b in digits {
        n = n * 10 + u64::from(*b - b'0');
    }
    n as i64
}

// The part of a line that is left to read, and the column where it begins.
#[derive(Drop)]
pub(crate) struct Reader<'a> {
    pub rest: &'a [u8],
    pub column: usize,
    ghost fits: { column + length rest.now < 2 ^ 64 },
}

impl<'a> Reader<'a> {
    ghost use Rattle.std.specs.Prelude.{◌≡◌};
    ghost use Rattle.lines.specs.Reading.{Spans, DigitsRead, NumberRead, FieldRead};

    // How many bytes the next number takes: a 0 stands alone.
    fn number_length(&self) -> usize
        ensures { Spans self.now.rest.now result }
    {
        match self.rest {
            [b'0', ..] => 1,
            _ => count_digits(self.rest),
        }
    }

    // The digits that come next.
    fn digits(&mut self) -> Option<i64>
        ensures { DigitsRead self.old.rest.now self.old.column result self.new.column self.new.rest.now }
    {
        let n = self.number_length();
        let (digits, rest) = self.rest.split_at(n);
        self.rest = rest;
        self.column += n;
        if n == 0 {
            return None;
        }
        Some(decimal(digits))
    }

    // The number that comes next. A minus sign stands only before a number above 0.
    fn number(&mut self, kind: Kind) -> Option<i64>
        ensures { NumberRead kind self.old.rest.now self.old.column result self.new.column self.new.rest.now }
    {
        let (Kind::Signed, [b'-', rest @ ..]) = (kind, self.rest) else {
            return self.digits();
        };
        self.rest = rest;
        self.column += 1;
        if let [b'0', ..] = rest {
            return None;
        }
        let n = self.digits()?;
        Some(-n)
    }

    // One space and a number. Where there is none, the reader stands where the line stops being one with such a field.
    pub fn field(&mut self, kind: Kind) -> Option<i64>
        ensures { FieldRead kind self.old.rest.now self.old.column result self.new.column self.new.rest.now }
    {
        let [b' ', rest @ ..] = self.rest else {
            return None;
        };
        self.rest = rest;
        self.column += 1;
        self.number(kind)
    }
}
