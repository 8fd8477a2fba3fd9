//! The words of an image's fault.

ghost use Rattle.std.specs.Prelude.{◌≡◌};
ghost use Rattle.ptk_image.specs.FaultWords.{image_fault_words};

use ptk_words::ImageFault;

/// Why bytes are no image, or one that does not fit, in words.
pub fn image_fault_words(fault: ImageFault) -> &'static str
    ensures { result.now ≡ image_fault_words fault }
{
    match fault {
        ImageFault::Short => "the image is shorter than its header",
        ImageFault::Magic => "the image does not begin with PTKI",
        ImageFault::Version => "the image has an unknown version",
        ImageFault::Length => "the image has other lengths than its header says",
        ImageFault::Entry => "the entry of the image is misplaced",
        ImageFault::Memory => "out of memory",
        ImageFault::Unfit => "the image does not fit into its partition",
    }
}
