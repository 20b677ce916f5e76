// How a book looks, and how much a paragraph may be.
ghost use Rattle.std.specs.Prelude.{◌≡◌};
ghost use Rattle.words.specs.Slots.{wide_by};

use store::Looks;

#[derive(Clone, Copy)]
pub(crate) struct Sheet {
    pub(crate) looks: Looks,
    pub(crate) bulk: usize,
}

impl Sheet {
    // How wide the space between two words is.
    pub(crate) fn space(&self) -> u8
        ensures { result ≡ wide_by self.now.looks.widths 32 }
    {
        self.looks.widths[0]
    }
}
