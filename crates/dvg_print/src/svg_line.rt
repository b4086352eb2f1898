//! Lines of pictures as SVG.
ghost use Rattle.std.specs.Prelude.{◌≡◌, ◌≤◌, ◌<◌, ◌+◌, ◌++◌, length, ℤ};
ghost use Rattle.std.specs.Fmt.{signed_decimal};
ghost use Rattle.std.specs.Int.Signed.{mag};
ghost use Rattle.dvg_print.specs.Svg as spec;
ghost use Rattle.dvg_print.specs.Svg.{pair_text, path_line};
ghost use Rattle.dvg_print.specs.declared.line.TheConstants.{MOST_BYTES};

use crate::line::Line;
use dvg_gen::Stroke;
use itoa::Buffer;

/// How many places there are along an axis: 4,096 screen units of 512 each.
const AXIS: u32 = 2_097_152;

// Returns the same place as `place` on an axis, from -1,048,576 to 1,048,575.
fn centred(place: u32) -> i32
    ensures value { result ≡ spec.centred place }
    ensures small { mag result ≤ 1048576 }
{
    let n = place % AXIS;
    if n < AXIS / 2 {
        n as i32
    } else {
        n as i32 - AXIS as i32
    }
}

// Returns the shorter way from `from` to `to` along an axis.
fn way(from: u32, to: u32) -> i32
    ensures value { result ≡ spec.way from to }
    ensures small { mag result ≤ 1048576 }
{
    centred(to % AXIS + (AXIS - from % AXIS))
}

impl Line {
    // Appends `n`, a place or a way along an axis, in decimal.
    fn signed(&mut self, n: i32)
        requires small { mag n ≤ 1048576 }
        requires room { length self.old + 8 ≤ MOST_BYTES }
        ensures text { self.new ≡ self.old ++ signed_decimal n }
        ensures grew { length self.new ≤ length self.old + 8 }
    {
        self.text(Buffer::new().format(n).as_bytes());
    }

    // Appends a point or a way, `x` and `y`.
    fn pair(&mut self, x: i32, y: i32)
        requires x { mag x ≤ 1048576 }
        requires y { mag y ≤ 1048576 }
        requires room { length self.old + 17 ≤ MOST_BYTES }
        ensures text { self.new ≡ self.old ++ pair_text x y }
        ensures grew { length self.new ≤ length self.old + 17 }
    {
        self.signed(x);
        self.text(b" ");
        self.signed(y);
    }

    // Appends the opacity for the intensity `z`.
    fn opacity(&mut self, z: u8)
        requires { length self.old + 3 ≤ MOST_BYTES }
        ensures text { self.new ≡ self.old ++ spec.opacity z }
        ensures grew { length self.new ≡ length self.old + 3 }
    {
        if z < 15 {
            let hundredths = 5 * (z + 5);
            self.text(b".");
            self.text(Buffer::new().format(hundredths).as_bytes());
        } else {
            self.text(b"1.0");
        }
    }

    /// Becomes the line of `stroke` in an SVG whose unit is 1/512 of a screen unit. It is a path
    /// from where `stroke` begins, -2,048 to 2,047 screen units, the shorter way to where it ends.
    /// The intensity is an opacity from 0.30 to 1 (this project's own choice).
    pub fn become_path(&mut self, stroke: Stroke)
        ensures { self.new ≡ path_line stroke }
    {
        self.clear();
        self.text(b"<path d=\"M");
        self.pair(centred(stroke.x0), centred(stroke.y0));
        self.text(b"l");
        self.pair(way(stroke.x0, stroke.x1), way(stroke.y0, stroke.y1));
        self.text(b"\" opacity=\"");
        self.opacity(stroke.z);
        self.text(b"\"/>\n");
    }
}
