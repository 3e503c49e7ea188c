// The fields of a request that are the port's own: a filter's name and a crop box.
#![tactic(auto)]

use crop_box::CropBox;
use filters::FilterType;
use request_fields::{Fault, Kind, Words};
use sheet::keys;

// A word that is to be a filter's name. It is looked up once all other words are right, since its fault is told last.
#[derive(Clone, Copy)]
pub struct Name<'a> {
    name: &'a [u8],
    fault: Fault,
}

impl<'a> Name<'a> {
    // The next word.
    pub fn read(words: &mut Words<'a>) -> Result<Name<'a>, Fault> {
        let name = words.word()?;
        let fault = words.not(Kind::Filter);
        Ok(Name { name, fault })
    }

    // That it is no filter's.
    pub fn fault(self) -> Fault {
        self.fault
    }

    // The filter.
    pub fn filter(self) -> Result<FilterType, Fault> {
        let name = self.name;
        if name == keys::BOX.as_slice() {
            return Ok(FilterType::Box);
        }
        if name == keys::BILINEAR.as_slice() {
            return Ok(FilterType::Bilinear);
        }
        if name == keys::CATMULL_ROM.as_slice() {
            return Ok(FilterType::CatmullRom);
        }
        if name == keys::MITCHELL.as_slice() {
            return Ok(FilterType::Mitchell);
        }
        Err(self.fault)
    }
}

// The next four words as left, top, width and height.
pub fn crop(words: &mut Words<'_>) -> Result<CropBox, Fault> {
    Ok(CropBox {
        left: words.number()?,
        top: words.number()?,
        width: words.number()?,
        height: words.number()?,
    })
}
