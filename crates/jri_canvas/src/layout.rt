//! Which bytes a pixel has.

ghost use Rattle.std.specs.Prelude.{◌≡◌, ◌<◌, ◌≤◌, IfSome, None};
ghost use Rattle.jri_canvas.specs.Layouts.{laid_size, layout_number, sample_count};

/// The pixels of a line.
#[derive(Clone, Copy)]
pub enum Pixels {
    /// A byte of grey each.
    Grey,
    /// A byte each of red, green and blue.
    Colour,
}

/// The order of the bytes of a colour; a grey is its own red, green and blue.
#[derive(Clone, Copy)]
pub enum Order {
    /// Red, green, blue.
    Rgb,
    /// Blue, green, red.
    Bgr,
    /// Red, green, blue, 255.
    Rgbx,
    /// Blue, green, red, 255.
    Bgrx,
}

/// How the pixels of a canvas are laid out.
#[derive(Clone, Copy)]
pub enum Layout {
    /// Unchanged: a byte of grey, or three of a colour.
    Plain,
    /// As colours in this order.
    Coloured(Order),
}

impl Pixels {
    /// Returns the size of a pixel in bytes.
    pub fn bytes(self) -> usize
        ensures value { result ≡ sample_count self }
        ensures some { 0 < result }
        ensures few { result ≤ 3 }
    {
        match self {
            Pixels::Grey => 1,
            Pixels::Colour => 3,
        }
    }
}

impl Layout {
    /// Returns the layout of this number, 0 to 4.
    pub fn of_number(number: u32) -> Option<Layout>
        ensures number { IfSome result (λ l. number ≡ layout_number l) }
        ensures none { result ≡ None → 4 < number }
    {
        match number {
            0 => Some(Layout::Plain),
            1 => Some(Layout::Coloured(Order::Rgb)),
            2 => Some(Layout::Coloured(Order::Bgr)),
            3 => Some(Layout::Coloured(Order::Rgbx)),
            4 => Some(Layout::Coloured(Order::Bgrx)),
            _ => None,
        }
    }

    /// Returns the size of a pixel in bytes.
    pub fn bytes(self, pixels: Pixels) -> usize
        ensures value { result ≡ laid_size self pixels }
        ensures some { 0 < result }
        ensures few { result ≤ 4 }
    {
        match self {
            Layout::Plain => pixels.bytes(),
            Layout::Coloured(Order::Rgb) => 3,
            Layout::Coloured(Order::Bgr) => 3,
            Layout::Coloured(Order::Rgbx) => 4,
            Layout::Coloured(Order::Bgrx) => 4,
        }
    }
}
