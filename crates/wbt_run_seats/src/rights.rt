//! For which contexts a pass publishes, and what it knows then.

ghost use Rattle.std.specs.Prelude.{◌≡◌, ◌<◌, ◌≤◌, ◌↔◌, ℕ, true, length, IsTrue};
ghost use Rattle.wbt_published.specs.Passes.{known_of};
ghost use Rattle.wbt_published.specs.Publishing.{IsComplete};

use wbt_published::EstPass;

/// Whether the pass publishes for each of the first so many contexts. Of each context for which it does, it knows all that was
/// published, and what it read is of these.
pub fn publishes_all(pass: &EstPass, contexts: u32) -> bool
    requires contexts { contexts ≤ length pass.now.known }
    ensures all { IsTrue result ↔ ((context : ℕ) → context < contexts → (known_of context pass.now).publishes ≡ true) }
    ensures complete { (context : ℕ) → context < contexts → (known_of context pass.now).publishes ≡ true → IsComplete (known_of context pass.now) }
{
    let mut all = true;
    for context in 0..contexts {
        if !pass.publishes(context) {
            all = false;
        }
    }
    all
}
