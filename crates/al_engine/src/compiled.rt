// The result of compiling.
ghost use Rattle.std.specs.Prelude.{◌≡◌};
ghost use Rattle.al_engine.specs.Programs.{bytes_in, image_in};

use crate::objects::UnitObject;
use al_base::{Diagnostic, UnitKey};
use al_bind::BindFault;
use al_link::Linked;
use al_link_image::Image;
use std::rc::Rc;

/// The order in which the items of a partition are elaborated; its units with their objects, which a later build uses again if they are unchanged;
/// and its image, which a later build links again in its place.
pub struct Program {
    pub order: Vec<UnitKey>,
    pub(crate) objects: Vec<Rc<UnitObject>>,
    pub linked: Linked,
}

impl Drop for Program {
    fn drop(self) {
        let Program {
            order: _,
            objects: _,
            linked: _,
        } = self;
    }
}

impl Program {
    /// The image. It takes no memory.
    pub fn image(&self) -> &Image
        ensures { result.now ≡ image_in self.now }
    {
        self.linked.image()
    }

    /// The image's bytes. It takes no memory.
    pub fn bytes(&self) -> &[u8]
        ensures { result.now ≡ bytes_in self.now }
    {
        self.linked.bytes()
    }
}

/// The result of compiling.
pub enum Compiled {
    /// The errors in the files, by file, place and number: at least one.
    Faulty(Vec<Diagnostic>),
    /// Something is missing in the partition, or there is no order of elaboration (ARM 10.2).
    Unbound(BindFault),
    /// The order of elaboration. The image would pass a limit of images.
    TooLarge(Vec<UnitKey>),
    Made(Program),
}

impl Drop for Compiled {
    fn drop(self) {
        match self {
            Compiled::Faulty(_) => {}
            Compiled::Unbound(_) => {}
            Compiled::TooLarge(_) => {}
            Compiled::Made(_) => {}
        }
    }
}
