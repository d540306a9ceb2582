//! The verdict on the bytes that a scan has looked at.

ghost use Rattle.std.specs.Prelude.{◌≡◌, ◌≢◌, ◌≤◌, length};
ghost use Rattle.httparse.specs.Grammar.{RequestHead};
ghost use Rattle.httparse.specs.Spans.{IsRequestWithin, IsRequestAt};
ghost use Rattle.lg_heads.specs.Heads.{IsHeadAt, IsVerdict};
ghost use Rattle.lg_heads.specs.Scanning.{place_of, HasCounted, HasStopped};

use crate::fields::{closes, first_value, framing};
use crate::head::Head;
use crate::head_scan::{HEAD_LINES, HeadScan, Seen};
use crate::verdict::Verdict;
use httparse::Status;
use httparse::spans::{EMPTY_HEADER_SPAN, HeaderSpan, RequestSpans, parse_request};

/// Judges the bytes that the scan has looked at; `seen` is why it stopped.
pub fn judge(bytes: &[u8], scan: &HeadScan, seen: Seen) -> Verdict
    requires counted { HasCounted scan.now bytes.now }
    requires stopped { HasStopped scan.now bytes.now seen }
    ensures verdict { IsVerdict bytes.now (place_of scan.now) result }
    ensures open { result ≡ Verdict.Open → seen ≢ Seen.Full }
{
    let front = &bytes[..scan.at()];
    let mut headers = [EMPTY_HEADER_SPAN; HEAD_LINES];
    match parse_request(front, &mut headers) {
        Ok(Status::Complete(spans)) => Verdict::Whole(whole_head(front, &headers, spans)),
        Ok(Status::Partial) if seen == Seen::Full => Verdict::Long,
        Ok(Status::Partial) => Verdict::Open,
        Err(_) => Verdict::Bad,
    }
}

/// The parts of a head that was parsed.
fn whole_head(bytes: &[u8], headers: &[HeaderSpan], spans: RequestSpans) -> Head
    requires within { IsRequestWithin bytes.now headers.now spans }
    requires short { length bytes.now ≤ 16384 }
    requires few { length headers.now ≤ 64 }
    ensures { (h : RequestHead) → IsRequestAt bytes.now headers.now spans h → IsHeadAt bytes.now result h }
{
    let headers = &headers[..spans.headers];
    Head {
        method: spans.method,
        target: spans.path,
        key: first_value(bytes, headers, b"idempotency-key"),
        framing: framing(bytes, headers),
        closes: spans.version == 0 || closes(bytes, headers),
        len: spans.len,
    }
}
