//! Pictures as PNG beside the bytes that a program in another language made, by the checksums of its library: of one
//! bit with and without a rest of eight, of one byte in proportion and as they are, of two bytes.

use lab_data::{Format, Picture, write_in};
use std::alloc::Global;
use std::test::Fail;

/// A picture and its bytes.
struct Row {
    width: u16,
    height: u16,
    greatest: u16,
    dots: &'static [u64],
    bytes: &'static [u8],
}

static ROWS: [Row; 6] = [
    Row {
        width: 4,
        height: 2,
        greatest: 1,
        dots: &[1, 0, 0, 1, 0, 1, 1, 0],
        bytes: b"\x89PNG\r\n\x1a\n\
              \0\0\0\rIHDR\0\0\0\x04\0\0\0\x02\x01\0\0\0\0W\xd3@\xce\
              \0\0\0\x02IDATx\x01\xec\x1a~\xd2\
              \0\0\0\x09IDAT\x01\x04\0\xfb\xff\0o\0\x9f\xa4\x0b\x87t\
              \0\0\0\x04IDAT\x01\xf0\x01\x0fn\xff\xdfb\
              \0\0\0\0IEND\xaeB`\x82",
    },
    Row {
        width: 9,
        height: 1,
        greatest: 1,
        dots: &[1, 0, 0, 0, 0, 0, 0, 1, 1],
        bytes: b"\x89PNG\r\n\x1a\n\
              \0\0\0\rIHDR\0\0\0\x09\0\0\0\x01\x01\0\0\0\0$\xb9\xb9\xd0\
              \0\0\0\x02IDATx\x01\xec\x1a~\xd2\
              \0\0\0\x08IDAT\x01\x03\0\xfc\xff\0~\x7f1\xcd\xc4\xfc\
              \0\0\0\x04IDAT\x01~\0\xfeV\xf5\x1a#\
              \0\0\0\0IEND\xaeB`\x82",
    },
    Row {
        width: 3,
        height: 1,
        greatest: 7,
        dots: &[0, 5, 7],
        bytes: b"\x89PNG\r\n\x1a\n\
              \0\0\0\rIHDR\0\0\0\x03\0\0\0\x01\x08\0\0\0\0>\x8bKh\
              \0\0\0\x02IDATx\x01\xec\x1a~\xd2\
              \0\0\0\x09IDAT\x01\x04\0\xfb\xff\0\0\xb6\xff\x18\xadc\x0f\
              \0\0\0\x04IDAT\x02o\x01\xb68\xb8\x84i\
              \0\0\0\0IEND\xaeB`\x82",
    },
    Row {
        width: 2,
        height: 2,
        greatest: 255,
        dots: &[0, 10, 200, 255],
        bytes: b"\x89PNG\r\n\x1a\n\
              \0\0\0\rIHDR\0\0\0\x02\0\0\0\x02\x08\0\0\0\0W\xddR\xf8\
              \0\0\0\x02IDATx\x01\xec\x1a~\xd2\
              \0\0\0\x0bIDAT\x01\x06\0\xf9\xff\0\0\n\0\xc8\xff\x937\x86;\
              \0\0\0\x04IDAT\x02\xbd\x01\xd2\xfcj\xc0v\
              \0\0\0\0IEND\xaeB`\x82",
    },
    Row {
        width: 2,
        height: 1,
        greatest: 4095,
        dots: &[1, 4095],
        bytes: b"\x89PNG\r\n\x1a\n\
              \0\0\0\rIHDR\0\0\0\x02\0\0\0\x01\x10\0\0\0\0\x81\xd9\xfc\x15\
              \0\0\0\x02IDATx\x01\xec\x1a~\xd2\
              \0\0\0\nIDAT\x01\x05\0\xfa\xff\0\0\x10\xff\xff\x03^\x8e\xd7\
              \0\0\0\x04IDAT\x032\x02\x0f}\xf0\x06\x04\
              \0\0\0\0IEND\xaeB`\x82",
    },
    Row {
        width: 2,
        height: 1,
        greatest: 65535,
        dots: &[65535, 4660],
        bytes: b"\x89PNG\r\n\x1a\n\
              \0\0\0\rIHDR\0\0\0\x02\0\0\0\x01\x10\0\0\0\0\x81\xd9\xfc\x15\
              \0\0\0\x02IDATx\x01\xec\x1a~\xd2\
              \0\0\0\nIDAT\x01\x05\0\xfa\xff\0\xff\xff\x124\x98\x83\x89\x22\
              \0\0\0\x04IDAT\x07V\x02E+EZ!\
              \0\0\0\0IEND\xaeB`\x82",
    },
];

/// Whether a picture has these bytes.
fn is_written(alloc: Global, row: &Row) -> Option<bool> {
    let dots = Vec::from_slice(alloc, row.dots).ok()?;
    if dots.len() != usize::from(row.height) * usize::from(row.width) {
        return None;
    }
    let picture = Picture::new(row.width, row.height, row.greatest, dots);
    let written = write_in(alloc, &picture, Format::Png).ok()?;
    Some(written.as_slice() == row.bytes)
}

/// The place of the first row that is not so.
fn first_not_so(alloc: Global) -> Option<usize> {
    for (place, row) in ROWS.iter().enumerate() {
        if is_written(alloc, row) != Some(true) {
            return Some(place);
        }
    }
    None
}

#[test]
fn pictures_have_the_bytes_of_another_program(rt: HostRuntime) -> Result<(), Fail> {
    assert_eq!(rt; first_not_so(rt.alloc()), None);
    Ok(())
}
