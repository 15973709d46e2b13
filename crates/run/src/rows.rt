// A mask as it lies in an image, as eight words: "in the image its first W words", zeros above.
ghost use Rattle.std.specs.Prelude.{◌≡◌, ◌+◌, ◌≤◌, length};
ghost use Rattle.run.specs.Work.{row_at};

pub fn row_at(image: &[u64], at: usize, width: usize) -> [u64; 8]
    requires { (width ≤ 8) × (at + width ≤ length image.now) }
    ensures { result ≡ row_at image.now at width }
{
    let mut r = [0u64; 8];
    r[..width].copy_from_slice(&image[at..at + width]);
    r
}
