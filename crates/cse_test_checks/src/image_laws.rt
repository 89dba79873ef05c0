//! Rows of cse_image: `read_image` and `view_image`, but for want of memory, and `write_image`.

ghost use Rattle.cse_test_checks.specs.Images.{ImagesAreWorked};

/// Law: for each rule of the format, bytes that break it; an image that is cut short at each byte; texts at their limits;
/// and what images of version 1 are in version 2.
pub fn worked_images()
    ensures { ImagesAreWorked }
{}
