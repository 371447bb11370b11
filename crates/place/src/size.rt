// The sides of a tile. Where there is a `Size` its sides are good ones, so that the tile's samples and bytes are numbers that a word holds.
ghost use Rattle.std.specs.Prelude.{◌≡◌, false, not, ◌*◌, ◌≤◌, is_some, IfSome};
ghost use Rattle.place.specs.Place.{bad_size, bc5_size, encoded_length, no_block};

#[derive(Clone, Copy)]
pub struct Size {
    pub width: usize,
    pub height: usize,
    pub ghost good: { bad_size width height ≡ false },
}

impl Size {
    pub fn new(width: usize, height: usize) -> Option<Self>
        ensures some { is_some result ≡ not (bad_size width height) }
        ensures sides { IfSome result (λ size. (size.width ≡ width) × (size.height ≡ height)) }
    {
        if crate::bad_size(width, height) {
            return None;
        }
        Some(Self { width, height })
    }

    // How many samples.
    #[tactic(auto, using(crate::proofs::Places::size_small))]
    pub fn area(self) -> usize
        ensures { result ≡ self.width * self.height }
    {
        self.width * self.height
    }

    // The bytes of all blocks, each of so many.
    #[tactic(auto, using(crate::proofs::Places::size_small, crate::proofs::Places::bytes_small))]
    pub fn encoded_length(self, block: usize) -> usize
        requires { block ≤ bc5_size }
        ensures { result ≡ encoded_length block self.width self.height }
    {
        crate::encoded_length(block, self.width, self.height)
    }

    // Whether no block of the tile stands there.
    pub fn lacks(self, column: usize, row: usize) -> bool
        ensures { result ≡ no_block self.width self.height column row }
    {
        (column >= self.width / 4) | (row >= self.height / 4)
    }
}
