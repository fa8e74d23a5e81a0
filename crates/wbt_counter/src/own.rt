//! A CPU's own word of a counter, which holds its number plus 2^32, and what atomic operations add to words.

ghost use Rattle.std.specs.Prelude.{◌≡◌, ◌^◌, ◌<◌, pos, ◌+ℤ◌};
ghost use Rattle.wbt_counter.specs.Word as words;
ghost use Rattle.wbt_counter.specs.Word.{IsPackable};
ghost use Rattle.wbt_counter.specs.Addends as spec;
ghost use Rattle.wbt_counter.specs.Addends.{HasRoom};

/// The word that holds a CPU's own number.
pub fn own_word(local: i64) -> u64
    requires has_room { HasRoom local }
    ensures value { result ≡ words.own_word local }
    ensures its_number { spec.local_in result ≡ local }
    ensures fits { result < 2 ^ 33 }
{
    (local + (1 << 32)) as u64
}

/// The number that an own word holds, in pages. Its word is this word again.
pub fn local_of(word: u64) -> i64
    requires fits { word < 2 ^ 33 }
    ensures value { result ≡ spec.local_in word }
    ensures has_room { HasRoom result }
    ensures its_word { words.own_word result ≡ word }
{
    word as i64 - (1 << 32)
}

/// A change of an own number as a word: what `fetch_add` takes to add it, and `fetch_sub` to take it away. Below zero it
/// is what wraps to it.
pub fn addend_of(change: i64) -> u64
    ensures { result ≡ spec.addend_of change }
{
    change.cast_unsigned()
}

/// What `fetch_add` takes to fold `delta` pages into the shared word: one version, and the pages.
pub fn fold_addend(delta: i64) -> u64
    requires few_pages { IsPackable delta }
    ensures value { result ≡ spec.fold_addend delta }
    ensures one_version { pos result ≡ pos (2 ^ 24) +ℤ delta }
{
    ((1 << 24) + delta) as u64
}
