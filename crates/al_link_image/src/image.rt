// The image of a partition.
ghost use Rattle.std.specs.Prelude.{◌≡◌, ◌≤◌, ◌∷◌, ◌++◌, [], length, option_map, vec_capacity, IfOk, IsOk, OnOk};
ghost use Rattle.al_instr.specs.Codes.{code_bytes};
ghost use Rattle.al_link_image.specs.Images.{IsImage, image_bytes};
ghost use Rattle.al_link_image.specs.Parts.{IsWhole, image_of};

use crate::bytes::{push_front, push_tail};
use crate::code::instructions_of;
use crate::parts::{ImageObject, ImageParts, Region};
use al_base::NoMemory;
use al_instr::{Instr, LineEntry};
use std::alloc::Global;
use std::marker::Model;

/// The compiled code of a partition with all that its run starts from, within the limits of images.
pub struct Image {
    parts: ImageParts,
}

impl Drop for Image {
    fn drop(self) {
        let Image { parts: _ } = self;
    }
}

impl Model for Image {
    ghost use Rattle.al_link_image.specs.Images as images;
    ghost use Rattle.al_link_image.specs.Parts.{IsWhole, image_of};

    ghost Value = { images.Image };

    ghost view = { λ i. image_of i.parts };

    ghost invariant = { λ i. IsWhole i.parts };
}

impl Image {
    /// The image of parts that are within the limits, and whose code is one of instructions. It takes no memory.
    pub fn new(parts: ImageParts) -> Image
        requires { IsWhole parts }
        ensures { result ≡ image_of parts }
    {
        Image { parts }
    }

    /// The image without tasks, words, objects and code. It takes no memory.
    pub fn empty(alloc: Global) -> Image {
        Image::new(ImageParts {
            tasks: 0,
            data_words: 0,
            protected: Vec::new(alloc),
            objects: Vec::new(alloc),
            code: Vec::new(alloc),
            lines: None,
        })
    }

    /// What the image is made of. It takes no memory.
    pub fn into_parts(self) -> ImageParts
        ensures value { self ≡ image_of result }
        ensures whole { IsWhole result }
    {
        let Image { parts } = self;
        parts
    }

    /// Each image is within the limits.
    pub fn limits(&self)
        ensures { IsImage self.now }
    {
        let _tasks = self.parts.tasks;
    }

    /// How many tasks it has besides the environment task.
    pub fn tasks(&self) -> u32
        ensures value { result ≡ self.now.tasks }
        ensures within { result ≤ 63 }
    {
        self.parts.tasks
    }

    /// How many data words there are.
    pub fn data_words(&self) -> u32
        ensures value { result ≡ self.now.data_words }
        ensures within { result ≤ 1048576 }
    {
        self.parts.data_words
    }

    /// The protected objects by their numbers.
    pub fn protected(&self) -> &[Region]
        ensures value { result.now ≡ self.now.protected }
        ensures within { length result.now ≤ 65535 }
    {
        self.parts.protected.as_slice()
    }

    /// The units whose code it holds, in the order of their elaboration.
    pub fn objects(&self) -> &[ImageObject]
        ensures value { result.now ≡ self.now.objects }
        ensures within { length result.now ≤ 65535 }
    {
        self.parts.objects.as_slice()
    }

    /// The bytes of the code.
    pub fn code(&self) -> &[u8]
        ensures value { result.now ≡ code_bytes self.now.code }
        ensures within { length result.now ≤ 16777216 }
    {
        self.parts.code.as_slice()
    }

    /// The table of lines: from which places on the code is of which lines, in the order of the places; none in an image of version
    /// 1.
    pub fn lines(&self) -> Option<&[LineEntry]>
        ensures { option_map (λ x. x.now) result ≡ self.now.lines }
    {
        match &self.parts.lines {
            None => None,
            Some(lines) => Some(lines.as_slice()),
        }
    }

    /// The code's instructions.
    ///
    /// # Errors
    ///
    /// `NoMemory` if the allocator refuses memory.
    pub fn instructions(&self, alloc: Global) -> Result<Vec<Instr>, NoMemory>
        ensures { IfOk result (λ instructions. instructions.items ≡ self.now.code) }
    {
        instructions_of(alloc, self.parts.code.as_slice())
    }

    /// The image's bytes, in all numbers the highest byte first.
    ///
    /// # Errors
    ///
    /// `NoMemory` if the allocator refuses memory.
    pub fn bytes(&self, alloc: Global) -> Result<Vec<u8>, NoMemory>
        ensures { IfOk result (λ bytes. bytes.items ≡ image_bytes self.now) }
    {
        let mut out = Vec::new(alloc);
        self.bytes_into(&mut out)?;
        Ok(out)
    }

    /// Writes the image's bytes over those that are in `out`. It takes no memory if there is room for them.
    ///
    /// # Errors
    ///
    /// `NoMemory` if there is no room and the allocator refuses memory. What `out` then has isn't specified.
    #[tactic(auto, unfolding(crate::specs::Images::image_bytes))]
    pub fn bytes_into(&self, out: &mut Vec<u8>) -> Result<(), NoMemory>
        ensures value { OnOk result (out.new.items ≡ image_bytes self.now) }
        ensures capacity { vec_capacity out.old ≤ vec_capacity out.new }
        ensures succeeds { length (image_bytes self.now) ≤ vec_capacity out.old → IsOk result }
    {
        out.clear();
        push_front(out, &self.parts)?;
        push_tail(out, &self.parts)
    }
}
