// The request writers: 02 for a written frame, and 15 before 16.
ghost use Rattle.std.specs.Prelude.{true, leb, eqb, length};
ghost use Rattle.wire.specs.Words.{both};
ghost use Rattle.wire.specs.Bytes.{long_at};
ghost use Rattle.services.specs.Written.{is_flag, access_of, Frames};
ghost use Rattle.services.specs.declared.Request.{Request};

use linked::frames;

#[unsafe(no_mangle)]
pub extern "C" fn coe_upload_frame(
    counter: u8,
    index: u16,
    sub: u8,
    complete: u8,
    frame: &mut [u8],
) -> u8
    ensures { Frames (is_flag complete) counter (Request.Upload index (access_of sub complete)) frame.old result frame.new }
{
    frames::coe_upload_frame(counter, index, sub, complete, frame)
}

#[unsafe(no_mangle)]
pub extern "C" fn coe_download_frame(
    counter: u8,
    index: u16,
    sub: u8,
    complete: u8,
    bytes: &[u8],
    frame: &mut [u8],
) -> u8
    ensures { Frames (both (is_flag complete) (leb (length bytes.now) 4)) counter (Request.Download index (access_of sub complete) (long_at bytes.now 0) (length bytes.now)) frame.old result frame.new }
{
    frames::coe_download_frame(counter, index, sub, complete, bytes, frame)
}

#[unsafe(no_mangle)]
pub extern "C" fn coe_segment_frame(counter: u8, toggle: u8, frame: &mut [u8]) -> u8
    ensures { Frames (is_flag toggle) counter (Request.Segment (eqb toggle 1)) frame.old result frame.new }
{
    frames::coe_segment_frame(counter, toggle, frame)
}

#[unsafe(no_mangle)]
pub extern "C" fn coe_list_frame(counter: u8, kind: u16, frame: &mut [u8]) -> u8
    ensures { Frames true counter (Request.Information kind) frame.old result frame.new }
{
    frames::coe_list_frame(counter, kind, frame)
}
