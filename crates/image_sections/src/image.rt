// Words with the places of their sections beside them: what whoever reads a checked image is given.
ghost use Rattle.image_sections.specs.Sections.{AreWords, Placed};

use crate::Sections;

// The words as they were lent, and their sections. That these are where the words have them is part of the type, so no function asks for it; and so is that
// each word has 64 bits, which of a slice within a record is not known otherwise.
#[derive(Clone, Copy)]
pub struct Image<'a> {
    pub words: &'a [u64],
    pub sections: Sections,
    ghost placed: { Placed words.now sections },
    ghost fit: { AreWords words.now },
}
