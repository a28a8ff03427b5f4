// The request writers.
ghost use Rattle.surface.specs.Writers.{UploadFrame, DownloadFrame, SegmentFrame, ListFrame};

use linked::frames;

pub fn upload(counter: u8, index: u16, sub: u8, complete: u8, frame: &mut [u8]) -> u8
    ensures { UploadFrame counter index sub complete frame.old result frame.new }
{
    frames::coe_upload_frame(counter, index, sub, complete, frame)
}

pub fn download(counter: u8, index: u16, sub: u8, complete: u8, sent: &[u8], frame: &mut [u8]) -> u8
    ensures { DownloadFrame counter index sub complete sent.now frame.old result frame.new }
{
    frames::coe_download_frame(counter, index, sub, complete, sent, frame)
}

pub fn segment(counter: u8, toggle: u8, frame: &mut [u8]) -> u8
    ensures { SegmentFrame counter toggle frame.old result frame.new }
{
    frames::coe_segment_frame(counter, toggle, frame)
}

pub fn list(counter: u8, kind: u16, frame: &mut [u8]) -> u8
    ensures { ListFrame counter kind frame.old result frame.new }
{
    frames::coe_list_frame(counter, kind, frame)
}
