//! Sets of numbers, with a bit for each in words of 64.
ghost use Rattle.std.specs.Prelude.{◌≡◌, ℕ, ◌<◌, ◌≤◌, ◌*◌, ◌/◌, ◌^◌, ◌||◌, ◌==◌, true, false};
ghost use Rattle.std.specs.Prelude.{length};
ghost use Rattle.std.specs.Prelude.{if◌then◌else◌};
ghost use Rattle.pg_serial.specs.Bits.{has, is_taken, IsLeast, IsLeastOf};

/// Adds `k` to the set.
pub fn add(words: &mut [u64], k: u32)
    requires { k < 64 * length words.old }
    ensures has { (i : ℕ) → has words.new i ≡ (has words.old i || (i == k)) }
    ensures taken { (i : ℕ) → is_taken words.new i ≡ (is_taken words.old i || (i == k / 64)) }
{
    words[(k / 64) as usize] |= 1u64 << (k % 64);
}

/// Takes `k` out of the set, and answers whether its word has numbers left.
pub fn take_out(words: &mut [u64], k: u32) -> bool
    requires { has words.old k ≡ true }
    ensures has { (i : ℕ) → has words.new i ≡ (if i == k then false else has words.old i) }
    ensures taken { (i : ℕ) → is_taken words.new i ≡
        (if i == k / 64 then result else is_taken words.old i) }
{
    let at = (k / 64) as usize;
    let left = words[at] & !(1u64 << (k % 64));
    words[at] = left;
    left != 0
}

/// The least number of the set, where its word is the first that isn't 0.
pub fn least_in(words: &[u64], at: u32) -> u32
    requires few { length words.now ≤ 2 ^ 20 }
    requires taken { IsLeast (is_taken words.now) at }
    ensures { IsLeast (has words.now) result }
{
    at * 64 + words[at as usize].trailing_zeros()
}

/// The first word that isn't 0.
pub fn first_taken(words: &[u64]) -> Option<u32>
    requires { length words.now ≤ 2 ^ 20 }
    ensures { IsLeastOf (is_taken words.now) result }
{
    for at in 0..words.len() as u32 {
        if words[at as usize] != 0 {
            return Some(at);
        }
    }
    None
}
