// A plain engine: it scores every block of nine bits, and keeps the best.
use plan::Plan;
use score::{Kind, score_of};
use search::search;
use trellis::Column;

// The block whose bits write this number, the last bit highest.
fn block_of(number: u16) -> [u8; 9] {
    let mut block = [0u8; 9];
    let mut rest = number;
    for bit in block.iter_mut() {
        *bit = u8::from(rest % 2 == 1);
        rest /= 2;
    }
    block
}

// The start number of a block: its first bits, the first one highest.
fn start_of(block: &[u8], memory: usize) -> u16 {
    block.iter().take(memory).fold(0u16, |start, bit| {
        start.wrapping_mul(2).wrapping_add(u16::from(*bit))
    })
}

// The block that scores best; of equals the one with the smaller start number, and then the smaller number with the last bit highest.
fn best_of_all<K: Kind>(plan: &Plan, kind: &K, values: &[i16]) -> Option<u16> {
    let memory = plan.parts().constraint.saturating_sub(1);
    let mut best = 0;
    let mut score = score_of(plan, kind, values, &block_of(0)).ok()?;
    for number in 1..512 {
        let other = score_of(plan, kind, values, &block_of(number)).ok()?;
        let earlier = start_of(&block_of(number), memory) < start_of(&block_of(best), memory);
        let better = !kind.no_worse(score, other);
        if better || (earlier && kind.no_worse(other, score)) {
            best = number;
            score = other;
        }
    }
    Some(best)
}

// What the search and the engine agree on.
#[derive(Clone, Copy)]
pub(crate) struct Agreement {
    // the score is the shown block's own, and as good as the engine's
    pub score: bool,
    // the block is the engine's
    pub block: bool,
}

// The search against the engine. One memory is lent for both columns: an array here has no known size, as the kind is open.
// Split in place: no proof closes for a function that answers two columns.
pub(crate) fn compared<K: Kind>(
    plan: &Plan,
    kind: &K,
    values: &[i16],
    scores: &mut [K::Score],
) -> Agreement {
    let number = best_of_all(plan, kind, values).unwrap_or(0);
    let mut block = [0u8; 9];
    let (first, second) = scores.split_at_mut(scores.len() / 2);
    let mut old = Column { scores: first };
    let mut new = Column { scores: second };
    let shown = search(
        plan,
        kind,
        values,
        &mut block,
        &mut old,
        &mut new,
        &mut [0u8; 288],
    );
    let own = score_of(plan, kind, values, &block);
    let best = score_of(plan, kind, values, &block_of(number));
    let score = match (shown, own, best) {
        (Ok(shown), Ok(own), Ok(best)) => are_equal(kind, shown, own)
            && are_equal(kind, shown, best),
        _ => false,
    };
    Agreement {
        score,
        block: block == block_of(number),
    }
}

// Whether each score is no worse than the other: a kind orders its scores, and has no equality beside that.
fn are_equal<K: Kind>(kind: &K, a: K::Score, b: K::Score) -> bool {
    kind.no_worse(a, b) && kind.no_worse(b, a)
}
