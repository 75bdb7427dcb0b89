// A page as it is planned, before it has a place in a block.
use pages::PageType;

// One struct for all three types, since the laws go over the fields of all pages alike.
#[derive(Clone, Copy, PartialEq, Eq, Debug)]
pub struct PlannedPage {
    // Filler, Data or a tape mark.
    pub kind: PageType,
    // Which piece of its record a Data page is, from 1; 1 for the others.
    pub piece: u32,
    // The record goes on in the next data block.
    pub more: bool,
    // The bytes of the page.
    pub count: u32,
    // The bytes of the whole record; 0 for the others.
    pub total: u32,
    // Its object, counted from 1 in the write; for Filler, the last object.
    pub object: u32,
}
