// Arrangements composed and inverted. Vertices and places are numbered from 1. An arrangement has the vertex at place i at
// index i - 1, with zeros after the last place.

#![tactic(auto)]

pub mod composed;

ghost use Rattle.std.specs.Prelude.{◌≡◌, true, false, MatchResult};
ghost use Rattle.pairs.specs.Vertices.{order_fits};
ghost use Rattle.arrangements.specs.Arrangement.{is_reordering};
ghost use Rattle.composing.specs.Answers.{compose_answer, invert_answer};

use arrangements::reordering::is_reordering;
use composed::{composed_of, inverse_of};
use pairs::vertices::order_fits;
use refusal::Refusal;

// Refuses an order that no graph has.
fn check_order(order: u32) -> Result<(), Refusal>
    ensures { MatchResult result (λ _. order_fits order ≡ true) (λ e. (order_fits order ≡ false) × (e ≡ Refusal.Order order)) }
{
    if order_fits(order) {
        Ok(())
    } else {
        Err(Refusal::Order { order })
    }
}

// Refuses what is no reordering.
fn check_reordering(order: u32, p: [u8; 32]) -> Result<(), Refusal>
    ensures { MatchResult result (λ _. is_reordering order p ≡ true) (λ e. (is_reordering order p ≡ false) × (e ≡ Refusal.Arrangement)) }
{
    if is_reordering(order, p) {
        Ok(())
    } else {
        Err(Refusal::Arrangement)
    }
}

// p composed with q: it puts p(q(i)) at i.
pub fn compose(order: u32, p: [u8; 32], q: [u8; 32]) -> Result<[u8; 32], Refusal>
    ensures { result ≡ compose_answer order p q }
{
    check_order(order)?;
    check_reordering(order, p)?;
    check_reordering(order, q)?;
    Ok(composed_of(order, &p, &q))
}

// The inverse of p: it puts at v the place at which p has v.
pub fn invert(order: u32, p: [u8; 32]) -> Result<[u8; 32], Refusal>
    ensures { result ≡ invert_answer order p }
{
    check_order(order)?;
    check_reordering(order, p)?;
    Ok(inverse_of(order, &p))
}
