// A file's record as the server lends it to a control. Its reparse data, names and links are lent beside it.
#![tactic(auto)]

use file_ids::FileId;

// Sizes and Usn are bit patterns of 64 bits; a control refuses what is out of range.
#[repr(C)]
#[derive(Clone, Copy, Debug, PartialEq, Eq)]
pub struct FileRecord {
    pub id: FileId,
    pub usn: u64,
    // end of file and valid data length
    pub eof: u64,
    pub valid: u64,
    pub attributes: u32,
    // the reparse tag, 0 for none, and the GUID that goes with a tag that is not Microsoft's
    pub tag: u32,
    pub guid: [u8; 16],
    // how many bytes of the lent store are the reparse data
    pub length: u64,
}
