//! Pictures byte by byte, in each form; texts of pictures at their limits, and each fault of one.

use lab_data::{Form, Format, Picture, PictureFault, read_picture, write_in};
use std::alloc::Global;
use std::test::Fail;

/// A picture, its text and in which form; whether it is one that is written.
struct Row {
    width: u16,
    height: u16,
    greatest: u16,
    dots: &'static [u64],
    form: Form,
    text: &'static [u8],
    is_written: bool,
}

static ROWS: [Row; 15] = [
    Row {
        width: 4,
        height: 2,
        greatest: 1,
        dots: &[1, 0, 0, 1, 0, 1, 1, 0],
        form: Form::Raw,
        text: b"P4\n4 2\n\x90\x60",
        is_written: true,
    },
    Row {
        width: 9,
        height: 1,
        greatest: 1,
        dots: &[1, 0, 0, 0, 0, 0, 0, 1, 1],
        form: Form::Raw,
        text: b"P4\n9 1\n\x81\x80",
        is_written: true,
    },
    Row {
        width: 4,
        height: 2,
        greatest: 1,
        dots: &[1, 0, 0, 1, 0, 1, 1, 0],
        form: Form::Plain,
        text: b"P1\n4 2\n1 0 0 1\n0 1 1 0\n",
        is_written: true,
    },
    Row {
        width: 3,
        height: 1,
        greatest: 7,
        dots: &[0, 5, 7],
        form: Form::Raw,
        text: b"P5\n3 1\n7\n\x00\x05\x07",
        is_written: true,
    },
    Row {
        width: 1,
        height: 3,
        greatest: 255,
        dots: &[0, 10, 255],
        form: Form::Raw,
        text: b"P5\n1 3\n255\n\x00\x0a\xff",
        is_written: true,
    },
    Row {
        width: 3,
        height: 1,
        greatest: 256,
        dots: &[1, 256, 255],
        form: Form::Raw,
        text: b"P5\n3 1\n256\n\x00\x01\x01\x00\x00\xff",
        is_written: true,
    },
    Row {
        width: 2,
        height: 1,
        greatest: 65535,
        dots: &[65535, 4660],
        form: Form::Raw,
        text: b"P5\n2 1\n65535\n\xff\xff\x12\x34",
        is_written: true,
    },
    Row {
        width: 9,
        height: 1,
        greatest: 65535,
        dots: &[0, 1, 2, 3, 4, 5, 6, 65535, 8],
        form: Form::Plain,
        text: b"P2\n9 1\n65535\n0 1 2 3 4 5 6 65535\n8 ",
        is_written: true,
    },
    Row {
        width: 0,
        height: 3,
        greatest: 1,
        dots: &[],
        form: Form::Plain,
        text: b"P1\n0 3\n",
        is_written: true,
    },
    Row {
        width: 4,
        height: 1,
        greatest: 1,
        dots: &[1, 0, 0, 1],
        form: Form::Plain,
        text: b"P1 # four dots\n#\n4 # of one row \n\t1\r\n10#01\n01\n# the end",
        is_written: false,
    },
    Row {
        width: 4,
        height: 1,
        greatest: 1,
        dots: &[1, 0, 0, 1],
        form: Form::Raw,
        text: b"P4 4 1 \x9f",
        is_written: false,
    },
    Row {
        width: 2,
        height: 1,
        greatest: 3,
        dots: &[0, 3],
        form: Form::Plain,
        text: b"P2\n2 1\n# the greatest\n3\n\n000 # zero\n0x3",
        is_written: false,
    },
    Row {
        width: 1,
        height: 1,
        greatest: 255,
        dots: &[35],
        form: Form::Raw,
        text: b"P5\t1\x0b1\x0c255\x0d#",
        is_written: false,
    },
    Row {
        width: 1,
        height: 1,
        greatest: 32,
        dots: &[32],
        form: Form::Raw,
        text: b"P5\n1 1\n32\n ",
        is_written: true,
    },
    Row {
        width: 1,
        height: 1,
        greatest: 2,
        dots: &[2],
        form: Form::Plain,
        text: b"P21 1 2 2",
        is_written: false,
    },
];

/// A text that is to be a picture of one row of four dots, and why it is none.
struct Bad {
    text: &'static [u8],
    fault: PictureFault,
}

static BAD: [Bad; 27] = [
    Bad {
        text: b"",
        fault: PictureFault::Magic,
    },
    Bad {
        text: b"P",
        fault: PictureFault::Magic,
    },
    Bad {
        text: b"P3\n4 1\n7\n",
        fault: PictureFault::Magic,
    },
    Bad {
        text: b"P6\n4 1\n7\n",
        fault: PictureFault::Magic,
    },
    Bad {
        text: b"GIF89a",
        fault: PictureFault::Magic,
    },
    Bad {
        text: b" P4\n4 1\n\x00",
        fault: PictureFault::Magic,
    },
    Bad {
        text: b"P4",
        fault: PictureFault::NotNumber(1),
    },
    Bad {
        text: b"P4\n\n# 4\nx 1\n",
        fault: PictureFault::NotNumber(4),
    },
    Bad {
        text: b"P4\n4\n",
        fault: PictureFault::NotNumber(3),
    },
    Bad {
        text: b"P4\n-4 1\n",
        fault: PictureFault::NotNumber(2),
    },
    Bad {
        text: b"P4\n5 1\n\x00",
        fault: PictureFault::Size(5, 1, 4, 1),
    },
    Bad {
        text: b"P4\n1 4\n\x00",
        fault: PictureFault::Size(1, 4, 4, 1),
    },
    Bad {
        text: b"P5\n18446744073709551615 1 x",
        fault: PictureFault::Size(18446744073709551615, 1, 4, 1),
    },
    Bad {
        text: b"P5\n18446744073709551616 1 x",
        fault: PictureFault::NotNumber(2),
    },
    Bad {
        text: b"P5\n4 1\n0\n\x00\x00\x00\x00",
        fault: PictureFault::Greatest(0),
    },
    Bad {
        text: b"P5\n4 1\n1\n\x00\x00\x00\x00",
        fault: PictureFault::Greatest(1),
    },
    Bad {
        text: b"P2\n4 1\n65536\n1 2 3 4",
        fault: PictureFault::Greatest(65536),
    },
    Bad {
        text: b"P2\n4 1\nred\n1 2 3 4",
        fault: PictureFault::NotNumber(3),
    },
    Bad {
        text: b"P2\n4 1\n7\n1 2\n3 # 4\n",
        fault: PictureFault::TooFew,
    },
    Bad {
        text: b"P2\n4 1\n7\n1 2\n3 4\n5",
        fault: PictureFault::TooMany,
    },
    Bad {
        text: b"P2\n4 1\n7\n1 2\n3 four\n",
        fault: PictureFault::NotNumber(5),
    },
    Bad {
        text: b"P2\n4 1\n7\n1 2\n8 9\n",
        fault: PictureFault::TooLarge(0, 2),
    },
    Bad {
        text: b"P1\n4 1\n102",
        fault: PictureFault::NotNumber(3),
    },
    Bad {
        text: b"P1\n4 1\n01100",
        fault: PictureFault::TooMany,
    },
    Bad {
        text: b"P4\n4 1",
        fault: PictureFault::TooFew,
    },
    Bad {
        text: b"P4\n4 1\n\x00\n",
        fault: PictureFault::TooMany,
    },
    Bad {
        text: b"P5\n4 1\n7\n\x01\x02\x03\x08",
        fault: PictureFault::TooLarge(0, 3),
    },
];

/// The picture of a row.
fn picture(alloc: Global, row: &Row) -> Option<Picture> {
    let dots = Vec::from_slice(alloc, row.dots).ok()?;
    if dots.len() != usize::from(row.height) * usize::from(row.width) {
        return None;
    }
    Some(Picture::new(row.width, row.height, row.greatest, dots))
}

/// Whether a picture has this text in this form.
fn is_written(alloc: Global, picture: &Picture, form: Form, text: &[u8]) -> bool {
    match write_in(alloc, picture, Format::Netpbm(form)) {
        Ok(written) => written.as_slice() == text,
        Err(_) => false,
    }
}

/// Whether a text is this picture.
fn is_read(alloc: Global, picture: &Picture, text: &[u8]) -> bool {
    if picture.width() == 0 {
        return true;
    }
    match read_picture(alloc, text, picture.width(), picture.height()) {
        Ok(read) => read.greatest() == picture.greatest() && read.dots() == picture.dots(),
        Err(_) => false,
    }
}

/// The place of the first row that is not so.
fn first_not_so(alloc: Global) -> Option<usize> {
    for (place, row) in ROWS.iter().enumerate() {
        let is_so = match picture(alloc, row) {
            Some(picture) => {
                is_read(alloc, &picture, row.text)
                    && is_written(alloc, &picture, row.form, row.text) == row.is_written
            }
            None => false,
        };
        if !is_so {
            return Some(place);
        }
    }
    None
}

/// The place of the first text that is refused for something else, or not.
fn first_not_refused(alloc: Global) -> Option<usize> {
    for (place, row) in BAD.iter().enumerate() {
        let refused = match read_picture(alloc, row.text, 4, 1) {
            Ok(_) => false,
            Err(fault) => fault == row.fault,
        };
        if !refused {
            return Some(place);
        }
    }
    None
}

#[test]
fn pictures_have_their_bytes(rt: HostRuntime) -> Result<(), Fail> {
    assert_eq!(rt; first_not_so(rt.alloc()), None);
    Ok(())
}

#[test]
fn the_first_fault_of_a_picture_is_told(rt: HostRuntime) -> Result<(), Fail> {
    assert_eq!(rt; first_not_refused(rt.alloc()), None);
    Ok(())
}
