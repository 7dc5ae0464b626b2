//! The lease word: how the last lease stands, in one number.

ghost use Rattle.std.specs.Prelude.{◌≡◌, ◌<◌, ◌^◌, ◌*◌, ◌%◌, ◌/◌, ◌≢◌};
ghost use Rattle.lease_core.specs.Word.{number_of, word_in, standing_in, flag_of, HasBothFlags};

/// How the lease that a word names stands.
#[derive(Clone, Copy, Debug, PartialEq, Eq)]
pub enum Standing {
    Active,
    Released,
    Revoked,
}

/// The lease word: the last lease of a session, its owner, how it stands and how many sends were
/// made by it. A lease is active where `lease` is above 0 and it stands as `Active`. In a released
/// word the owner is the heir where there is one, and else the lease's library.
#[derive(Clone, Copy, Debug, PartialEq, Eq)]
pub struct Word {
    pub lease: u32,
    pub owner: u8,
    pub standing: Standing,
    pub count: u32,
}

const RELEASED: u64 = 1 << 32;

const REVOKED: u64 = 1 << 33;

/// The word that a number stands for: bits 63 to 40 are the lease, 39 to 34 the owner, bit 33 says
/// revoked and bit 32 released, which counts where both are set; bits 31 to 0 are the count.
pub fn read_word(n: u64) -> Word
    ensures word { result ≡ word_in n }
    ensures lease { result.lease < 2 ^ 24 }
    ensures owner { result.owner < 64 }
    ensures written { (HasBothFlags n → ⊥) → number_of result ≡ n }
{
    Word {
        lease: (n >> 40) as u32,
        owner: ((n >> 34) % 64) as u8,
        standing: standing_in(n),
        count: (n % RELEASED) as u32,
    }
}

fn standing_in(n: u64) -> Standing
    ensures { result ≡ standing_in n }
{
    if n / RELEASED % 2 == 1 {
        Standing::Released
    } else if n / REVOKED % 2 == 1 {
        Standing::Revoked
    } else {
        Standing::Active
    }
}

/// The number that stands for a word whose lease is below 2^24 and whose owner is below 64. At most
/// one of its two flags is set, and `read_word` gives the word again.
pub fn write_word(w: Word) -> u64
    requires lease { w.lease < 2 ^ 24 }
    requires owner { w.owner < 64 }
    ensures number { result ≡ number_of w }
    ensures read { word_in result ≡ w }
{
    let count = w.count;
    let flag = flag_of(w.standing);
    u64::from(w.lease) * (1 << 40) + u64::from(w.owner) * (1 << 34) + flag + u64::from(count)
}

fn flag_of(standing: Standing) -> u64
    ensures { result ≡ flag_of standing }
{
    match standing {
        Standing::Active => 0,
        Standing::Released => RELEASED,
        Standing::Revoked => REVOKED,
    }
}
