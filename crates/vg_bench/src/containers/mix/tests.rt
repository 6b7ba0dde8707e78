use super::*;
use std::test::Fail;

// No packet of any flow so far.
fn no_packets(alloc: Global, flows: usize) -> Result<Vec<Option<u32>>, Fail> {
    Ok(vec![in alloc; None; flows]?)
}

// Notes a flow's packet, and gives the one before it.
fn note(last: &mut Vec<Option<u32>>, flow: u16, turn: u32) -> Option<u32> {
    let place = last.get_mut(flow as usize)?;
    let earlier = *place;
    *place = Some(turn);
    earlier
}

// The same by a plain list of the last packet of each flow: a packet finds its flow where that packet came within the span,
// and a flow that began has expired unless it is there at the end.
fn plain(alloc: Global, count: u32) -> Result<Counts, Fail> {
    let mut last = no_packets(alloc, CAPACITY as usize)?;
    let mut state = 1;
    let (mut found, mut new) = (0u32, 0u32);
    let mut bound = 0;
    for turn in 0..count {
        state = next_state(state);
        bound = turn.saturating_sub(200_000);
        match note(&mut last, flow_of(state), turn) {
            Some(earlier) if earlier >= bound => found = found.saturating_add(1),
            _ => new = new.saturating_add(1),
        }
    }
    let kept = last
        .iter()
        .filter(|turn| matches!(turn, Some(turn) if *turn >= bound))
        .count();
    Ok(Counts {
        found,
        new,
        expired: (new as u64).saturating_sub(kept as u64),
    })
}

#[test]
fn as_a_plain_list_of_last_packets(rt: HostRuntime) -> Result<(), Fail> {
    let alloc = rt.alloc();
    for count in [0, 1, 300_000] {
        let counts = mix(alloc, count).expect(&rt, "room for the flows");
        assert_eq!(rt; counts, plain(alloc, count)?, "{count} packets");
        assert_eq!(rt; counts.found + counts.new, count);
    }
    Ok(())
}
