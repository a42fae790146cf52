// The whole search, as it is called.
ghost use Rattle.std.specs.Prelude.{◌≡◌, ◌+◌, ◌*◌, ◌^◌, ◌≤◌, false, is_ok, IfOk, if◌then◌else◌};
ghost use Rattle.code.specs.Numbers.{bits_of};
ghost use Rattle.plan.specs.Faults.{chain_number, outcome};
ghost use Rattle.plan.specs.Plans.{plan_scheme};
ghost use Rattle.score.specs.Blocks.{value_at};
ghost use Rattle.search.specs.Searching.{memory};
ghost use Rattle.search.specs.Looking.{Found, shown, lengths, long_enough, search_answer};

use crate::pass::{Pass, Workspace};
use plan::{ChainFault, Plan};
use score::Kind;
use trellis::{Column, Trellis};

// Writes the block that fits the values best, and answers its score. On ordinary channels a handful of trips round the trellis suffice.
// What the columns and the marks hold afterwards is left open. A memory that is too short is refused, and nothing changes.
pub fn search<'a, 'c, K: Kind>(
    plan: &'a Plan,
    kind: &'a K,
    values: &'a [i16],
    block: &mut [u8],
    old: &mut Column<'c, K::Score>,
    new: &mut Column<'c, K::Score>,
    marks: &mut [u8],
) -> Result<K::Score, ChainFault>
    ensures answer { outcome chain_number result ≡ search_answer (plan_scheme plan.now) (lengths values.now block.old old.old.scores.now new.old.scores.now marks.old) }
    ensures found { let k = K.Kind.scale kind.now in let s = plan_scheme plan.now in let v = value_at values.now in IfOk result (λ score. Found k s v (bits_of block.new) score) }
    ensures block { let k = K.Kind.scale kind.now in let s = plan_scheme plan.now in let v = value_at values.now in block.new ≡ (if is_ok result then shown k s v block.old else block.old) }
    ensures old { is_ok result ≡ false → old.new.scores.now ≡ old.old.scores.now }
    ensures new { is_ok result ≡ false → new.new.scores.now ≡ new.old.scores.now }
    ensures marks { is_ok result ≡ false → marks.new ≡ marks.old }
{
    let (score, _) = search_with_trips(plan, kind, values, block, old, new, marks)?;
    Ok(score)
}

// The same search, with the number of trips round the trellis that it took. How many is left open, but for the bound.
pub fn search_with_trips<'a, 'c, K: Kind>(
    plan: &'a Plan,
    kind: &'a K,
    values: &'a [i16],
    block: &mut [u8],
    old: &mut Column<'c, K::Score>,
    new: &mut Column<'c, K::Score>,
    marks: &mut [u8],
) -> Result<(K::Score, usize), ChainFault>
    ensures answer { outcome chain_number result ≡ search_answer (plan_scheme plan.now) (lengths values.now block.old old.old.scores.now new.old.scores.now marks.old) }
    ensures found { let k = K.Kind.scale kind.now in let s = plan_scheme plan.now in let v = value_at values.now in IfOk result (λ r. Found k s v (bits_of block.new) r.0) }
    ensures trips { let m = memory (plan_scheme plan.now) in IfOk result (λ r. r.1 ≤ 2 * 2 ^ m + 3) }
    ensures block { let k = K.Kind.scale kind.now in let s = plan_scheme plan.now in let v = value_at values.now in block.new ≡ (if is_ok result then shown k s v block.old else block.old) }
    ensures old { is_ok result ≡ false → old.new.scores.now ≡ old.old.scores.now }
    ensures new { is_ok result ≡ false → new.new.scores.now ≡ new.old.scores.now }
    ensures marks { is_ok result ≡ false → marks.new ≡ marks.old }
{
    if !has_room(plan, values, block, old, new, marks) {
        return Err(ChainFault::TooShort);
    }
    let pass = Pass {
        plan,
        kind,
        values,
        trellis: Trellis::of(plan),
    };
    let mut workspace = Workspace {
        pass: &pass,
        before: old,
        after: new,
        marks,
        trips: 0,
    };
    let score = workspace.pick(block);
    Ok((score, workspace.trips))
}

// Whether every memory is long enough.
fn has_room<S: Copy>(
    plan: &Plan,
    values: &[i16],
    block: &[u8],
    old: &Column<'_, S>,
    new: &Column<'_, S>,
    marks: &[u8],
) -> bool
    ensures { result ≡ long_enough (plan_scheme plan.now) (lengths values.now block.now old.now.scores.now new.now.scores.now marks.now) }
{
    let trellis = Trellis::of(plan);
    plan.sent_length() <= values.len()
        && trellis.size() <= block.len()
        && trellis.states() <= old.scores.len()
        && trellis.states() <= new.scores.len()
        && trellis.mark_bytes() <= marks.len()
}
