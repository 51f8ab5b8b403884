//! Where new keys and nonces come from.
ghost use Rattle.std.specs.Prelude.{◌≡◌, ◌+◌, ◌%◌, ◌^◌, ℕ, List};

/// Where new keys and nonces come from: blocks of 16 octets, one after the other.
pub trait Draws {
    /// The block at each place.
    ghost block_at: { Self → ℕ → List ℕ };

    /// The place of the next block.
    ghost place_of: { Self → ℕ };

    /// Gives the next block. After place 2^64 - 1 it begins at place 0 again.
    fn draw(&mut self) -> [u8; 16]
        ensures block { result ≡ block_at self.old (place_of self.old) }
        ensures place { place_of self.new ≡ (place_of self.old + 1) % 2 ^ 64 }
        ensures blocks { (k : ℕ) → block_at self.new k ≡ block_at self.old k };

    /// The place of the next block.
    fn place(&self) -> u64
        ensures { result ≡ place_of self.now };
}
