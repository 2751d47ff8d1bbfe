// Lines by example.
use crate::reading::read_line;
use crate::writing::{answer_line, sheet_line};
use ledger::actions::Action;
use ledger::books::Holding;
use ledger::cells::{Instruction, Quote};
use ledger::faults::{Fault, Reason};

// Lines that are refused, and their columns.
const COLUMNS: [(&[u8], usize); 19] = [
    (b"", 0),
    (b" O", 0),
    (b"f 0 0 1", 0),
    (b"F", 1),
    (b"F ", 2),
    (b"F 01 0 1", 3),
    (b"F 0 0 -", 7),
    (b"F 0 0 -0", 7),
    (b"F 0 0 -01", 7),
    (b"F 0 0 +1", 6),
    (b"B 0 0 -5", 6),
    (b"F -1 0 5", 2),
    (b"F 0 0 5 ", 7),
    (b"F1 0 0", 1),
    (b"F  1 0 0", 2),
    (b"F 1234567890123456789 0 0", 20),
    (b"F 0 0 5\r", 7),
    (b"F 0\t0 5", 3),
    (b"F 0 \xc3\xa4 5", 4),
];

#[test]
fn refused(rt: HostRuntime) {
    for (line, column) in COLUMNS {
        assert_eq!(rt; read_line(line), Err(Fault::misfit(column)));
    }
}

#[test]
fn read(rt: HostRuntime) {
    let cover = Instruction {
        action: Action::AddCover,
        account: 63,
        series: 0,
        amount: 999_999_999_999_999_999,
    };
    assert_eq!(rt; read_line(b"K 63 0 999999999999999999"), Ok(cover));
    let fill = Instruction {
        action: Action::Fill,
        account: 0,
        series: 7,
        amount: -20,
    };
    assert_eq!(rt; read_line(b"F 0 7 -20"), Ok(fill));
}

#[test]
fn written(rt: HostRuntime) {
    let quote = Quote {
        held: 1,
        low: 1,
        high: 1,
    };
    assert!(rt; answer_line(Ok(quote)).as_bytes() == b"ok\n".as_slice());
    let fault = Fault {
        reason: Reason::NotACall,
        depth: 1,
        spot: 0,
    };
    assert!(rt; answer_line(Err(fault)).as_bytes() == b"no 11 1 0\n".as_slice());
    let far = Fault {
        reason: Reason::Line,
        depth: 255,
        spot: 18_446_744_073_709_551_615,
    };
    assert!(rt; answer_line(Err(far)).as_bytes() == b"no 17 255 18446744073709551615\n".as_slice());
    let held = Holding {
        account: 0,
        series: 63,
        held: 10,
    };
    assert!(rt; sheet_line(held).as_bytes() == b"p 0 63 10\n".as_slice());
    let short = Holding {
        account: 7,
        series: 10,
        held: -9_223_372_036_854_775_808,
    };
    assert!(rt; sheet_line(short).as_bytes() == b"p 7 10 -9223372036854775808\n".as_slice());
}
