// The directory in the caller's workspace: segment k, counted from 1, is the 1,024 bytes from 1,024 × (k − 1) on.
ghost use Rattle.std.specs.Prelude.{◌≡◌, ◌*◌, ◌≤◌, length, IfSome};
ghost use Rattle.std.specs.List.{AllByRecursion};
ghost use Rattle.std.specs.Option.{option_map};
ghost use Rattle.segment.specs.Chains.{InDirectory, segment_at, next_of, chain_from, order_of};
ghost use Rattle.segment.specs.Rule4.{RuleFour};

pub use crate::order::Chain;
use codec::words::word_at;

// The bytes of a segment. For our other crates, as those below: the caller has checked that the workspace holds it.
// Directory and number stay two parameters, since the directory is borrowed anew around each write.
pub fn segment_at(dir: &[u8], k: usize) -> &[u8; 1024]
    requires { InDirectory dir.now k }
    ensures bytes { result.now ≡ segment_at dir.now k }
{
    let from = 1024 * (k - 1);
    // cut to length first, so that no test of the length is left when it runs
    dir[from..from + 1024].first_chunk().unwrap()
}

// The segment after one, or 0 at the end of the chain.
#[tactic(auto, unfolding(crate::specs::Chains::next_of))]
pub fn next_of(dir: &[u8], k: usize) -> usize
    requires { InDirectory dir.now k }
    ensures { result ≡ next_of dir.now k }
{
    word_at(dir, 1024 * (k - 1) + 2) as usize
}

// The chain from segment 1, unless it leaves 1 to `highest`, or ends sooner or later than after so many segments.
#[tactic(auto, using(crate::proofs::Chains::met_bad, crate::proofs::Chains::met_all, crate::proofs::Chains::met_more))]
pub fn chain_of(dir: &[u8], highest: usize) -> Option<Chain>
    requires { (highest ≤ 31) × (1024 * highest ≤ length dir.now) }
    ensures order { option_map order_of result ≡ chain_from highest highest (next_of dir.now) 1 }
    ensures inside { IfSome result (λ c. (c.count ≡ highest) × AllByRecursion (λ k. (1 ≤ k) × (k ≤ highest)) (order_of c)) }
    ensures long { IfSome result (λ c. length (order_of c) ≡ highest) }
{
    let mut order = [0; 31];
    let mut k = 1;
    for i in 0..highest {
        if k == 0 || k > highest {
            return None;
        }
        order[i] = k;
        k = next_of(dir, k);
    }
    if k != 0 {
        return None;
    }
    Some(Chain {
        count: highest,
        order,
    })
}

// Rule 4 holds exactly when a chain is found.
#[tactic(auto, using(crate::proofs::Rule4::rule_four))]
pub fn rule_four()
    ensures { RuleFour }
{}
