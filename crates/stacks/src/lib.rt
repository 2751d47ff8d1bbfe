// Tests over stacks of books and layers.
#![tactic(auto)]

#[cfg(test)]
mod tests {
    use cover::CoverLayer;
    use entries::book::EntryBook;
    use foreign::SpanLayer;
    use grid::GridBook;
    use ledger::actions::Action;
    use ledger::books::Holding;
    use ledger::cells::{Instruction, Quote};
    use ledger::faults::{Fault, Reason};
    use ledger::ledgers::Ledger;
    use orders::OrderLayer;
    use std::alloc::{AllocError, Global};
    use std::test::Fail;

    // One instruction for account 0.
    fn tell<L: Ledger>(
        ledger: &mut L,
        letter: char,
        series: usize,
        amount: i64,
    ) -> Result<Quote, Fault> {
        let action = Action::try_from(letter)?;
        ledger.instruct(Instruction {
            action,
            account: 0,
            series,
            amount,
        })
    }

    fn range<L: Ledger>(ledger: &L, series: usize) -> (i64, i64) {
        let cell = ledger.cell(0, series);
        (cell.low, cell.high)
    }

    fn grid_of(heap: Global, numbers: usize) -> Result<GridBook, AllocError> {
        Ok(GridBook::new(vec![in heap; 7; numbers]?))
    }

    #[test]
    fn resting_orders_widen_the_range(rt: HostRuntime) -> Result<(), Fail> {
        let heap = rt.alloc();
        let mut orders = OrderLayer::new(grid_of(heap, 64)?, heap)?;
        tell(&mut orders, 'B', 0, 5)?;
        tell(&mut orders, 'S', 0, 3)?;
        assert_eq!(rt; range(&orders, 0), (-3, 5));
        tell(&mut orders, 'E', 0, 2)?;
        assert_eq!(rt; range(&orders, 0), (-1, 5));
        Ok(())
    }

    #[test]
    fn cover_never_makes_a_short_long(rt: HostRuntime) -> Result<(), Fail> {
        let heap = rt.alloc();
        let mut cover = CoverLayer::new(grid_of(heap, 64)?, heap)?;
        tell(&mut cover, 'F', 0, -5)?;
        tell(&mut cover, 'K', 0, 3)?;
        assert_eq!(rt; range(&cover, 0), (-2, -2));
        tell(&mut cover, 'K', 0, 6)?;
        assert_eq!(rt; range(&cover, 0), (0, 0));
        Ok(())
    }

    #[test]
    fn cover_above_orders_and_below_them(rt: HostRuntime) -> Result<(), Fail> {
        let heap = rt.alloc();
        let mut above = CoverLayer::new(OrderLayer::new(grid_of(heap, 64)?, heap)?, heap)?;
        tell(&mut above, 'S', 0, 5)?;
        tell(&mut above, 'K', 0, 5)?;
        assert_eq!(rt; range(&above, 0), (0, 0));
        let mut below = OrderLayer::new(CoverLayer::new(grid_of(heap, 64)?, heap)?, heap)?;
        tell(&mut below, 'S', 0, 5)?;
        tell(&mut below, 'K', 0, 5)?;
        assert_eq!(rt; range(&below, 0), (-5, 0));
        Ok(())
    }

    #[test]
    fn an_execution_may_be_refused_by_the_book(rt: HostRuntime) -> Result<(), Fail> {
        let heap = rt.alloc();
        let mut orders = OrderLayer::new(CoverLayer::new(grid_of(heap, 64)?, heap)?, heap)?;
        tell(&mut orders, 'F', 0, -1_000_000_000)?;
        tell(&mut orders, 'K', 0, 1_000_000_000)?;
        tell(&mut orders, 'S', 0, 5)?;
        let before = orders.cell(0, 0);
        assert_eq!(rt;
            tell(&mut orders, 'G', 0, 5),
            Err(Fault {
                reason: Reason::Reach,
                depth: 2,
                spot: 0,
            })
        );
        assert_eq!(rt; orders.cell(0, 0), before);
        Ok(())
    }

    #[test]
    fn a_foreign_layer_stands_anywhere(rt: HostRuntime) -> Result<(), Fail> {
        let heap = rt.alloc();
        let mut spans = SpanLayer::new(OrderLayer::new(SpanLayer::new(grid_of(heap, 64)?), heap)?);
        tell(&mut spans, 'F', 1, 4)?;
        tell(&mut spans, 'S', 1, 3)?;
        assert_eq!(rt; range(&spans, 1), (-3, 4));
        assert_eq!(rt;
            tell(&mut spans, 'K', 0, 1),
            Err(Fault {
                reason: Reason::NoTaker,
                depth: 3,
                spot: 0,
            })
        );
        Ok(())
    }

    // Whether the numbers from a place on are all 7.
    fn tail_stays(memory: &[i64], from: usize) -> bool {
        memory.iter().skip(from).all(|n| *n == 7)
    }

    // Whole rows of 64 numbers, at most 64; the rest of the memory stays, after making and after a fill.
    #[test]
    fn grid_memory(rt: HostRuntime) -> Result<(), Fail> {
        let heap = rt.alloc();
        for (numbers, accounts) in [(0, 0), (63, 0), (64, 1), (4159, 64), (4200, 64)] {
            let made = grid_of(heap, numbers)?.into_memory();
            assert!(rt; made.len() == numbers && tail_stays(&made, 64 * accounts));
            let mut book = grid_of(heap, numbers)?;
            assert_eq!(rt; book.accounts(), accounts);
            assert_eq!(rt; tell(&mut book, 'F', 0, 9).is_ok(), accounts > 0);
            let memory = book.into_memory();
            assert!(rt; memory.len() == numbers && tail_stays(&memory, 64 * accounts));
            assert_eq!(rt;
                memory.first().copied().unwrap_or(7),
                if accounts > 0 { 9 } else { 7 }
            );
        }
        Ok(())
    }

    #[test]
    fn an_entry_book_serves_a_freed_record_again(rt: HostRuntime) -> Result<(), Fail> {
        let heap = rt.alloc();
        let mut book = EntryBook::new(vec![in heap; Holding {
            account: 9,
            series: 9,
            held: 9
        }; 1]?);
        tell(&mut book, 'F', 0, 1)?;
        assert_eq!(rt; tell(&mut book, 'F', 2, 1), Err(Fault::found(Reason::Full)));
        tell(&mut book, 'F', 0, -1)?;
        tell(&mut book, 'F', 2, 1)?;
        assert_eq!(rt; range(&book, 2), (1, 1));
        Ok(())
    }

    #[test]
    fn entry_memory(rt: HostRuntime) -> Result<(), Fail> {
        let heap = rt.alloc();
        let stale = Holding {
            account: 1,
            series: 2,
            held: 3,
        };
        let mut none = EntryBook::new(Vec::new(heap));
        assert_eq!(rt; tell(&mut none, 'F', 0, 1), Err(Fault::found(Reason::Full)));
        let made = EntryBook::new(vec![in heap; stale; 4097]?).into_memory();
        assert_eq!(rt; made.last().copied(), Some(stale));
        let mut book = EntryBook::new(vec![in heap; stale; 4097]?);
        assert_eq!(rt; book.cell(1, 2).held, 0);
        tell(&mut book, 'F', 5, -4)?;
        tell(&mut book, 'F', 3, 8)?;
        let memory = book.into_memory();
        assert_eq!(rt; memory.len(), 4097);
        assert_eq!(rt; memory.last().copied(), Some(stale));
        Ok(())
    }

    #[test]
    fn depth_stays_at_255(rt: HostRuntime) {
        let deep = Fault {
            reason: Reason::Rest,
            depth: 254,
            spot: 0,
        };
        assert_eq!(rt; deep.deeper().depth, 255);
        assert_eq!(rt; deep.deeper().deeper().depth, 255);
    }

    #[test]
    fn the_least_amount_is_refused(rt: HostRuntime) -> Result<(), Fail> {
        let mut book = grid_of(rt.alloc(), 64)?;
        assert_eq!(rt;
            tell(&mut book, 'F', 0, i64::MIN),
            Err(Fault::found(Reason::Amount))
        );
        assert_eq!(rt;
            tell(&mut book, 'F', 64, 1),
            Err(Fault::found(Reason::Unknown))
        );
        assert_eq!(rt;
            tell(&mut book, 'x', 0, 1),
            Err(Fault::found(Reason::Unknown))
        );
        Ok(())
    }
}
