// The numbers that the page names: limits, widths and bytes. Code in every room takes them from here; `page_numbers` pins each to its definition.
#![tactic(auto)]

ghost use Rattle.std.specs.Prelude.{◌≡◌};
ghost use Rattle.limits.specs.Limits.{page_numbers};

// Limits: bytes of a file, vertices, elements, tetrahedra, thousandths of a millimetre either way.
pub const FILE_LIMIT: usize = 65536;

pub const VERTEX_LIMIT: usize = 4096;

pub const ELEMENT_LIMIT: usize = 1024;

pub const TETRAHEDRON_LIMIT: usize = 6144;

pub const COORDINATE_LIMIT: i32 = 500000;

// The same as the reader compares it, with a magnitude.
pub const MAGNITUDE_LIMIT: u64 = COORDINATE_LIMIT as u64;

// Digits: before the point of a coordinate, behind it, of a vertex number or count.
pub const WHOLE_DIGITS: usize = 6;

pub const DECIMAL_DIGITS: usize = 3;

pub const NUMBER_DIGITS: usize = 4;

// Widths: the numbers of a vertex, of an element record, of its corners, of a tetrahedron of the output; the bytes of a mark, and where a line's fields begin.
pub const VERTEX_WIDTH: usize = 3;

pub const ELEMENT_WIDTH: usize = 9;

pub const CORNER_WIDTH: usize = 8;

pub const TETRAHEDRON_WIDTH: usize = 4;

pub const MARK_WIDTH: usize = 2;

pub const FIELDS_AT: usize = 3;

// Tables as long as the limits allow: the numbers of so many vertices, elements and tetrahedra.
pub const VERTEX_NUMBERS: usize = VERTEX_WIDTH * VERTEX_LIMIT;

pub const ELEMENT_NUMBERS: usize = ELEMENT_WIDTH * ELEMENT_LIMIT;

pub const TETRAHEDRON_NUMBERS: usize = TETRAHEDRON_WIDTH * TETRAHEDRON_LIMIT;

// Bytes of the text file.
pub const LINE_END: u8 = 10;

pub const SPACE: u8 = 32;

pub const COMMA: u8 = 44;

pub const MINUS: u8 = 45;

pub const POINT: u8 = 46;

pub const ZERO: u8 = 48;

pub const NINE: u8 = 57;

// Every number above but the three products, in this order.
pub fn page_numbers() -> [usize; 21]
    ensures { result ≡ page_numbers }
{
    [
        FILE_LIMIT,
        VERTEX_LIMIT,
        ELEMENT_LIMIT,
        TETRAHEDRON_LIMIT,
        COORDINATE_LIMIT as usize,
        WHOLE_DIGITS,
        DECIMAL_DIGITS,
        NUMBER_DIGITS,
        VERTEX_WIDTH,
        ELEMENT_WIDTH,
        CORNER_WIDTH,
        TETRAHEDRON_WIDTH,
        MARK_WIDTH,
        FIELDS_AT,
        usize::from(LINE_END),
        usize::from(SPACE),
        usize::from(COMMA),
        usize::from(MINUS),
        usize::from(POINT),
        usize::from(ZERO),
        usize::from(NINE),
    ]
}
