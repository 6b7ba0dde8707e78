ghost use Rattle.std.specs.Prelude.{◌≡◌, ◌<◌, length, slice_index_or, slice_set, []};
ghost use Rattle.vg_vector.specs.Cells.{with_cell};

use super::*;
use std::test::Fail;

#[test]
fn a_cell_is_written_lent_and_taken_back(rt: HostRuntime) -> Result<(), Fail> {
    let mut cells = Cells::new(rt.alloc(), 3, 2).expect(&rt, "room for six bytes");
    assert_eq!(rt; cells.cell(1), [0, 0].as_slice());
    cells.cell_mut(1).fill(7);
    let loan = cells.borrow(1);
    assert_eq!(rt; loan.index(), 1);
    cells.cell_mut(2)[1] = 8;
    cells.give_back(loan);
    let again = cells.borrow(1);
    drop(again);
    assert_eq!(rt; cells.cell(0), [0, 0].as_slice());
    assert_eq!(rt; cells.cell(1), [7, 7].as_slice());
    assert_eq!(rt; cells.cell(2), [0, 8].as_slice());
    Ok(())
}

#[test]
fn no_cells_or_no_bytes(rt: HostRuntime) -> Result<(), Fail> {
    assert!(rt; Cells::new(rt.alloc(), 0, 5).is_ok());
    let cells = Cells::new(rt.alloc(), 2, 0).expect(&rt, "room for no bytes");
    assert_eq!(rt; cells.cell(1).len(), 0);
    assert!(rt; Cells::new(rt.alloc(), u32::MAX, u32::MAX).is_err());
    Ok(())
}

const COUNT: u32 = 7;

// One more number of a fixed row.
fn next(seed: u64) -> u64 {
    seed.wrapping_mul(6364136223846793005)
        .wrapping_add(1442695040888963407)
}

// One byte of a cell is written, and nothing else.
fn write(cells: &mut Cells, i: u32, place: usize, byte: u8)
    requires cell { i < length cells.old.cells }
    requires place { place < cells.old.size }
    ensures { cells.new ≡ with_cell cells.old i (slice_set (slice_index_or cells.old.cells i []) place byte) }
{
    cells.cell_mut(i)[place] = byte;
}

#[test]
fn many_writes_are_those_on_a_plain_list(rt: HostRuntime) -> Result<(), Fail> {
    let alloc = rt.alloc();
    let mut cells = Cells::new(alloc, COUNT, 5).expect(&rt, "room for 35 bytes");
    let mut plain = vec![in alloc; [0u8; 5]; COUNT as usize]?;
    let mut seed = 1;
    for _step in 0..2000u32 {
        seed = next(seed);
        let i = (seed >> 40) as u32 % COUNT;
        let place = (seed >> 50) as usize % 5;
        let byte = (seed >> 56) as u8;
        write(&mut cells, i, place, byte);
        plain[i as usize][place] = byte;
        for k in 0..COUNT {
            assert_eq!(rt; cells.cell(k), plain[k as usize].as_slice(), "at cell {k}");
        }
    }
    Ok(())
}
