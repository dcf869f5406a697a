//! The networks with their expiry depths, and the base and the tip of a chain.

ghost use Rattle.std.specs.Prelude.{◌≡◌, ◌↔◌, ℕ, suc, ◌≤◌, Some};
ghost use Rattle.nmc_base.specs.Heights.{highest};
ghost use Rattle.nmc_base.specs.Expiry.{Expires, due_height, expiry_depth, is_expired, least_amount};

use crate::hashes::Hash32;

/// The network whose rules hold.
#[derive(Clone, Copy, PartialEq, Eq, Hash, Debug)]
pub enum Profile {
    /// The private network of tests, with an expiry of 30 blocks.
    Regtest,
    /// The public network.
    Main,
}

impl Profile {
    /// For how many blocks the coin of a name stands at the height.
    pub fn depth(self, height: u32) -> u32
        requires { height ≤ suc highest }
        ensures { result ≡ expiry_depth self height }
    {
        match self {
            Profile::Regtest => 30,
            Profile::Main => {
                if height < 24_000 {
                    12_000
                } else if height < 48_000 {
                    height - 12_000
                } else {
                    36_000
                }
            }
        }
    }

    /// Whether a name that was last changed at one height is expired at the other.
    pub fn expired(self, made: u32, height: u32) -> bool
        requires made { made ≤ suc highest }
        requires height { height ≤ suc highest }
        ensures { result ≡ is_expired self made height }
    {
        made + self.depth(height) <= height
    }

    /// The height whose names expire at this height: those last changed there are expired at it, and weren't one block
    /// before. None where there is no such height.
    pub fn due(self, height: u32) -> Option<u32>
        requires { height ≤ suc highest }
        ensures due { result ≡ due_height self height }
        // Just the names last changed there expire.
        ensures just { (made : ℕ) → (result ≡ Some made) ↔ Expires self made height }
    {
        match self {
            Profile::Regtest => height.checked_sub(30),
            Profile::Main => {
                if height <= 24_000 {
                    height.checked_sub(12_000)
                } else if height <= 48_000 {
                    None
                } else {
                    Some(height - 36_000)
                }
            }
        }
    }

    /// The least amount of an output that holds a name, in units of which a coin has 100,000,000.
    pub fn least_amount(self) -> u64
        ensures { result ≡ least_amount self }
    {
        match self {
            Profile::Regtest => 1_000_000,
            Profile::Main => 0,
        }
    }
}

/// The block on which a chain begins. It is not connected itself: it stands for all before it.
#[derive(Clone, Copy, PartialEq, Eq, Hash, Debug)]
pub struct Base {
    pub profile: Profile,
    pub height: u32,
    pub hash: Hash32,
}

/// The last block of a chain, or its base where no block was connected.
#[derive(Clone, Copy, PartialEq, Eq, Hash, Debug)]
pub struct Tip {
    pub height: u32,
    pub hash: Hash32,
}
