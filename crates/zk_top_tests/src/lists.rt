use crate::case::{Case, comes_out};
use std::alloc::Global;
use std::test::Fail;

/// A DNS query of 33 bytes and its answer of 63.
pub const QUERY: &[u8] = b"\
    \xd4\xc3\xb2\xa1\x02\0\x04\0\0\0\0\0\0\0\0\0\0\0\x04\0\x01\0\0\0\
    \0\xf1Se\0\0\0\0K\0\0\0K\0\0\0\0\0\0\0\0\0\0\0\0\0\0\0\x08\0E\0\0=\0\0\0\0\0\x11\xa6{\n\0\0\x01\n\0\05\x9c@\05\0)\xf2`\x124\x01\0\0\x01\0\0\0\0\0\0\x03www\x07example\x03com\0\0\x01\0\x01\
    \0\xf1Se N\0\0i\0\0\0i\0\0\0\0\0\0\0\0\0\0\0\0\0\0\0\x08\0E\0\0[\0\0\0\0\0\x11\xa6]\n\0\05\n\0\0\x01\05\x9c@\0G\x02*\x124\x81\x80\0\x01\0\x02\0\0\0\0\x03www\x07example\x03com\0\0\x01\0\x01\xc0\x0c\0\x05\0\x01\0\0\x01,\0\x02\xc0\x10\xc0\x10\0\x01\0\x01\0\0\x01,\0\x04]\xb8\xd8\"";

/// A GET, the answer with a body of 2 bytes, and the end of both sides.
pub const EXCHANGE: &[u8] = b"\
    \xd4\xc3\xb2\xa1\x02\0\x04\0\0\0\0\0\0\0\0\0\0\0\x04\0\x01\0\0\0\
    \0\xf1Se\0\0\0\06\0\0\06\0\0\0\0\0\0\0\0\0\0\0\0\0\0\0\x08\0E\0\0(\0\0\0\0\0\x06\xa6\x80\n\0\0\x01\n\0\0P\x9cA\0P\0\0\0d\0\0\0\0P\x02\0\0\xfe\x9c\0\0\
    \0\xf1Se\x10'\0\06\0\0\06\0\0\0\0\0\0\0\0\0\0\0\0\0\0\0\x08\0E\0\0(\0\0\0\0\0\x06\xa6\x80\n\0\0P\n\0\0\x01\0P\x9cA\0\0\x01\xf4\0\0\0eP\x12\0\0\xfc\x97\0\0\
    \0\xf1Se N\0\0V\0\0\0V\0\0\0\0\0\0\0\0\0\0\0\0\0\0\0\x08\0E\0\0H\0\0\0\0\0\x06\xa6`\n\0\0\x01\n\0\0P\x9cA\0P\0\0\0e\0\0\x01\xf5P\x10\0\0\xd1\xc1\0\0GET / HTTP/1.1\r\nHost: a.test\r\n\r\n\
    \0\xf1Se0u\0\0^\0\0\0^\0\0\0\0\0\0\0\0\0\0\0\0\0\0\0\x08\0E\0\0P\0\0\0\0\0\x06\xa6X\n\0\0P\n\0\0\x01\0P\x9cA\0\0\x01\xf5\0\0\0\x85P\x10\0\0\xe4\xe6\0\0HTTP/1.1 200 OK\r\nContent-Length: 2\r\n\r\nhi\
    \0\xf1Se@\x9c\0\06\0\0\06\0\0\0\0\0\0\0\0\0\0\0\0\0\0\0\x08\0E\0\0(\0\0\0\0\0\x06\xa6\x80\n\0\0\x01\n\0\0P\x9cA\0P\0\0\0\x85\0\0\x02\x1dP\x11\0\0\xfcO\0\0\
    \0\xf1SeP\xc3\0\06\0\0\06\0\0\0\0\0\0\0\0\0\0\0\0\0\0\0\x08\0E\0\0(\0\0\0\0\0\x06\xa6\x80\n\0\0P\n\0\0\x01\0P\x9cA\0\0\x02\x1d\0\0\0\x86P\x11\0\0\xfcN\0\0\
    \0\xf1Se`\xea\0\06\0\0\06\0\0\0\0\0\0\0\0\0\0\0\0\0\0\0\x08\0E\0\0(\0\0\0\0\0\x06\xa6\x80\n\0\0\x01\n\0\0P\x9cA\0P\0\0\0\x86\0\0\x02\x1eP\x10\0\0\xfcN\0\0";

/// `QUERY` and `EXCHANGE` merged by time. The datagrams have a VLAN tag, short frames are padded to 60
/// bytes, the packet of the answer has total length 0, and ARP and IPv6 stand between.
pub const MERGED: &[u8] = b"\
    \xd4\xc3\xb2\xa1\x02\0\x04\0\0\0\0\0\0\0\0\0\0\0\x04\0\x01\0\0\0\
    \0\xf1Se\0\0\0\0O\0\0\0O\0\0\0\0\0\0\0\0\0\0\0\0\0\0\0\x81\0\0\x07\x08\0E\0\0=\0\0\0\0\0\x11\xa6{\n\0\0\x01\n\0\05\x9c@\05\0)\xf2`\x124\x01\0\0\x01\0\0\0\0\0\0\x03www\x07example\x03com\0\0\x01\0\x01\
    \0\xf1Se\0\0\0\0<\0\0\0<\0\0\0\0\0\0\0\0\0\0\0\0\0\0\0\x08\0E\0\0(\0\0\0\0\0\x06\xa6\x80\n\0\0\x01\n\0\0P\x9cA\0P\0\0\0d\0\0\0\0P\x02\0\0\xfe\x9c\0\0\0\0\0\0\0\0\
    \0\xf1Se\x10'\0\0<\0\0\0<\0\0\0\0\0\0\0\0\0\0\0\0\0\0\0\x08\0E\0\0(\0\0\0\0\0\x06\xa6\x80\n\0\0P\n\0\0\x01\0P\x9cA\0\0\x01\xf4\0\0\0eP\x12\0\0\xfc\x97\0\0\0\0\0\0\0\0\
    \0\xf1Se\x98:\0\0<\0\0\0<\0\0\0\0\0\0\0\0\0\0\0\0\0\0\0\x08\x06\0\x01\x08\0\x06\x04\0\x01\0\0\0\0\0\0\n\0\0\x01\0\0\0\0\0\0\n\0\0P\0\0\0\0\0\0\0\0\0\0\0\0\0\0\0\0\0\0\
    \0\xf1Se N\0\0m\0\0\0m\0\0\0\0\0\0\0\0\0\0\0\0\0\0\0\x81\0\0\x07\x08\0E\0\0[\0\0\0\0\0\x11\xa6]\n\0\05\n\0\0\x01\05\x9c@\0G\x02*\x124\x81\x80\0\x01\0\x02\0\0\0\0\x03www\x07example\x03com\0\0\x01\0\x01\xc0\x0c\0\x05\0\x01\0\0\x01,\0\x02\xc0\x10\xc0\x10\0\x01\0\x01\0\0\x01,\0\x04]\xb8\xd8\"\
    \0\xf1Se N\0\0V\0\0\0V\0\0\0\0\0\0\0\0\0\0\0\0\0\0\0\x08\0E\0\0H\0\0\0\0\0\x06\xa6`\n\0\0\x01\n\0\0P\x9cA\0P\0\0\0e\0\0\x01\xf5P\x10\0\0\xd1\xc1\0\0GET / HTTP/1.1\r\nHost: a.test\r\n\r\n\
    \0\xf1Se\xa8a\0\0>\0\0\0>\0\0\0\0\0\0\0\0\0\0\0\0\0\0\0\x86\xdd`\0\0\0\0\x08:\xff\0\0\0\0\0\0\0\0\0\0\0\0\0\0\0\x01\0\0\0\0\0\0\0\0\0\0\0\0\0\0\0\x02\x80\0\0\0\0\x01\0\x01\
    \0\xf1Se0u\0\0^\0\0\0^\0\0\0\0\0\0\0\0\0\0\0\0\0\0\0\x08\0E\0\0\0\0\0\0\0\0\x06\xa6\xa8\n\0\0P\n\0\0\x01\0P\x9cA\0\0\x01\xf5\0\0\0\x85P\x10\0\0\xe4\xe6\0\0HTTP/1.1 200 OK\r\nContent-Length: 2\r\n\r\nhi\
    \0\xf1Se@\x9c\0\0<\0\0\0<\0\0\0\0\0\0\0\0\0\0\0\0\0\0\0\x08\0E\0\0(\0\0\0\0\0\x06\xa6\x80\n\0\0\x01\n\0\0P\x9cA\0P\0\0\0\x85\0\0\x02\x1dP\x11\0\0\xfcO\0\0\0\0\0\0\0\0\
    \0\xf1SeP\xc3\0\0<\0\0\0<\0\0\0\0\0\0\0\0\0\0\0\0\0\0\0\x08\0E\0\0(\0\0\0\0\0\x06\xa6\x80\n\0\0P\n\0\0\x01\0P\x9cA\0\0\x02\x1d\0\0\0\x86P\x11\0\0\xfcN\0\0\0\0\0\0\0\0\
    \0\xf1Se`\xea\0\0<\0\0\0<\0\0\0\0\0\0\0\0\0\0\0\0\0\0\0\x08\0E\0\0(\0\0\0\0\0\x06\xa6\x80\n\0\0\x01\n\0\0P\x9cA\0P\0\0\0\x86\0\0\x02\x1eP\x10\0\0\xfcN\0\0\0\0\0\0\0\0";

/// Two answers, to HEAD and to GET, that were captured before both requests.
const ANSWERS_FIRST: &[u8] = b"\
    \xd4\xc3\xb2\xa1\x02\0\x04\0\0\0\0\0\0\0\0\0\0\0\x04\0\x01\0\0\0\
    \0\xf1Se\0\0\0\06\0\0\06\0\0\0\0\0\0\0\0\0\0\0\0\0\0\0\x08\0E\0\0(\0\0\0\0\0\x06\xa6\x80\n\0\0\x01\n\0\0P\x9cA\0P\0\0\0d\0\0\0\0P\x02\0\0\xfe\x9c\0\0\
    \0\xf1Se\x10'\0\06\0\0\06\0\0\0\0\0\0\0\0\0\0\0\0\0\0\0\x08\0E\0\0(\0\0\0\0\0\x06\xa6\x80\n\0\0P\n\0\0\x01\0P\x9cA\0\0\x01\xf4\0\0\0eP\x12\0\0\xfc\x97\0\0\
    \0\xf1Se N\0\0^\0\0\0^\0\0\0\0\0\0\0\0\0\0\0\0\0\0\0\x08\0E\0\0P\0\0\0\0\0\x06\xa6X\n\0\0P\n\0\0\x01\0P\x9cA\0\0\x01\xf5\0\0\0eP\x10\0\0\x1d=\0\0HTTP/1.1 200 OK\r\nContent-Length: 500\r\n\r\n\
    \0\xf1Se0u\0\0Q\0\0\0Q\0\0\0\0\0\0\0\0\0\0\0\0\0\0\0\x08\0E\0\0C\0\0\0\0\0\x06\xa6e\n\0\0P\n\0\0\x01\0P\x9cA\0\0\x02\x1d\0\0\0eP\x10\0\0\x83\r\0\0HTTP/1.1 204 No Content\r\n\r\n\
    \0\xf1Se@\x9c\0\0]\0\0\0]\0\0\0\0\0\0\0\0\0\0\0\0\0\0\0\x08\0E\0\0O\0\0\0\0\0\x06\xa6Y\n\0\0\x01\n\0\0P\x9cA\0P\0\0\0e\0\0\x028P\x10\0\0\xd7^\0\0HEAD /a HTTP/1.1\r\n\r\nGET /b HTTP/1.1\r\n\r\n";

/// An answer in chunks and one up to the end of the stream.
const CHUNKS: &[u8] = b"\
    \xd4\xc3\xb2\xa1\x02\0\x04\0\0\0\0\0\0\0\0\0\0\0\x04\0\x01\0\0\0\
    \0\xf1Se\0\0\0\06\0\0\06\0\0\0\0\0\0\0\0\0\0\0\0\0\0\0\x08\0E\0\0(\0\0\0\0\0\x06\xa6\x80\n\0\0\x01\n\0\0P\x9cA\0P\0\0\0d\0\0\0\0P\x02\0\0\xfe\x9c\0\0\
    \0\xf1Se\x10'\0\06\0\0\06\0\0\0\0\0\0\0\0\0\0\0\0\0\0\0\x08\0E\0\0(\0\0\0\0\0\x06\xa6\x80\n\0\0P\n\0\0\x01\0P\x9cA\0\0\x01\xf4\0\0\0eP\x12\0\0\xfc\x97\0\0\
    \0\xf1Se N\0\0Z\0\0\0Z\0\0\0\0\0\0\0\0\0\0\0\0\0\0\0\x08\0E\0\0L\0\0\0\0\0\x06\xa6\\\n\0\0\x01\n\0\0P\x9cA\0P\0\0\0e\0\0\x01\xf5P\x10\0\0?3\0\0GET / HTTP/1.1\r\n\r\nGET / HTTP/1.1\r\n\r\n\
    \0\xf1Se0u\0\0x\0\0\0x\0\0\0\0\0\0\0\0\0\0\0\0\0\0\0\x08\0E\0\0j\0\0\0\0\0\x06\xa6>\n\0\0P\n\0\0\x01\0P\x9cA\0\0\x01\xf5\0\0\0\x89P\x10\0\0+W\0\0HTTP/1.1 200 OK\r\nTransfer-Encoding: chunked\r\nContent-Length: 9\r\n\r\n\
    \0\xf1Se@\x9c\0\0M\0\0\0M\0\0\0\0\0\0\0\0\0\0\0\0\0\0\0\x08\0E\0\0?\0\0\0\0\0\x06\xa6i\n\0\0P\n\0\0\x01\0P\x9cA\0\0\x027\0\0\0\x89P\x10\0\0`+\0\03;x=y\r\nabc\r\n0\r\nT: u\r\n\r\n\
    \0\xf1SeP\xc3\0\0N\0\0\0N\0\0\0\0\0\0\0\0\0\0\0\0\0\0\0\x08\0E\0\0@\0\0\0\0\0\x06\xa6h\n\0\0P\n\0\0\x01\0P\x9cA\0\0\x02N\0\0\0\x89P\x11\0\0_\xed\0\0HTTP/1.0 200 OK\r\n\r\nhello";

/// 6 bytes of a body that the client acknowledged were not captured.
pub const GAP_IN_BODY: &[u8] = b"\
    \xd4\xc3\xb2\xa1\x02\0\x04\0\0\0\0\0\0\0\0\0\0\0\x04\0\x01\0\0\0\
    \0\xf1Se\0\0\0\06\0\0\06\0\0\0\0\0\0\0\0\0\0\0\0\0\0\0\x08\0E\0\0(\0\0\0\0\0\x06\xa6\x80\n\0\0\x01\n\0\0P\x9cA\0P\0\0\0d\0\0\0\0P\x02\0\0\xfe\x9c\0\0\
    \0\xf1Se\x10'\0\06\0\0\06\0\0\0\0\0\0\0\0\0\0\0\0\0\0\0\x08\0E\0\0(\0\0\0\0\0\x06\xa6\x80\n\0\0P\n\0\0\x01\0P\x9cA\0\0\x01\xf4\0\0\0eP\x12\0\0\xfc\x97\0\0\
    \0\xf1Se N\0\0H\0\0\0H\0\0\0\0\0\0\0\0\0\0\0\0\0\0\0\x08\0E\0\0:\0\0\0\0\0\x06\xa6n\n\0\0\x01\n\0\0P\x9cA\0P\0\0\0e\0\0\x01\xf5P\x10\0\0\x1d\xe6\0\0GET / HTTP/1.1\r\n\r\n\
    \0\xf1Se0u\0\0a\0\0\0a\0\0\0\0\0\0\0\0\0\0\0\0\0\0\0\x08\0E\0\0S\0\0\0\0\0\x06\xa6U\n\0\0P\n\0\0\x01\0P\x9cA\0\0\x01\xf5\0\0\0wP\x10\0\0\xbe\xf3\0\0HTTP/1.1 200 OK\r\nContent-Length: 10\r\n\r\n0123\
    \0\xf1Se@\x9c\0\06\0\0\06\0\0\0\0\0\0\0\0\0\0\0\0\0\0\0\x08\0E\0\0(\0\0\0\0\0\x06\xa6\x80\n\0\0P\n\0\0\x01\0P\x9cA\0\0\x02&\0\0\0wP\x11\0\0\xfcT\0\0\
    \0\xf1SeP\xc3\0\06\0\0\06\0\0\0\0\0\0\0\0\0\0\0\0\0\0\0\x08\0E\0\0(\0\0\0\0\0\x06\xa6\x80\n\0\0\x01\n\0\0P\x9cA\0P\0\0\0w\0\0\x02'P\x10\0\0\xfcT\0\0";

/// 8 bytes were not captured, of which 6 are of a body.
const GAP_PAST_BODY: &[u8] = b"\
    \xd4\xc3\xb2\xa1\x02\0\x04\0\0\0\0\0\0\0\0\0\0\0\x04\0\x01\0\0\0\
    \0\xf1Se\0\0\0\06\0\0\06\0\0\0\0\0\0\0\0\0\0\0\0\0\0\0\x08\0E\0\0(\0\0\0\0\0\x06\xa6\x80\n\0\0\x01\n\0\0P\x9cA\0P\0\0\0d\0\0\0\0P\x02\0\0\xfe\x9c\0\0\
    \0\xf1Se\x10'\0\06\0\0\06\0\0\0\0\0\0\0\0\0\0\0\0\0\0\0\x08\0E\0\0(\0\0\0\0\0\x06\xa6\x80\n\0\0P\n\0\0\x01\0P\x9cA\0\0\x01\xf4\0\0\0eP\x12\0\0\xfc\x97\0\0\
    \0\xf1Se N\0\0Z\0\0\0Z\0\0\0\0\0\0\0\0\0\0\0\0\0\0\0\x08\0E\0\0L\0\0\0\0\0\x06\xa6\\\n\0\0\x01\n\0\0P\x9cA\0P\0\0\0e\0\0\x01\xf5P\x10\0\0?3\0\0GET / HTTP/1.1\r\n\r\nGET / HTTP/1.1\r\n\r\n\
    \0\xf1Se0u\0\0a\0\0\0a\0\0\0\0\0\0\0\0\0\0\0\0\0\0\0\x08\0E\0\0S\0\0\0\0\0\x06\xa6U\n\0\0P\n\0\0\x01\0P\x9cA\0\0\x01\xf5\0\0\0\x89P\x10\0\0\xbe\xe1\0\0HTTP/1.1 200 OK\r\nContent-Length: 10\r\n\r\n0123\
    \0\xf1Se@\x9c\0\06\0\0\06\0\0\0\0\0\0\0\0\0\0\0\0\0\0\0\x08\0E\0\0(\0\0\0\0\0\x06\xa6\x80\n\0\0P\n\0\0\x01\0P\x9cA\0\0\x02(\0\0\0\x89P\x11\0\0\xfc@\0\0\
    \0\xf1SeP\xc3\0\06\0\0\06\0\0\0\0\0\0\0\0\0\0\0\0\0\0\0\x08\0E\0\0(\0\0\0\0\0\x06\xa6\x80\n\0\0\x01\n\0\0P\x9cA\0P\0\0\0\x89\0\0\x02)P\x10\0\0\xfc@\0\0";

/// A capture, and its lines.
pub type Row = (&'static [u8], &'static [u8]);

/// Captures of whole exchanges.
pub const WHOLE: &[Row] = &[
    (
        QUERY,
        b"1700000000.000000\tpacket\t1700000000.000000\t75\t75\n\
         1700000000.000000\topened\t1\tudp\t10.0.0.1\t40000\t10.0.0.53\t53\n\
         1700000000.000000\tdns\t1\torig\t4660\t33\n\
         1700000000.020000\tpacket\t1700000000.020000\t105\t105\n\
         1700000000.020000\tdns\t1\tresp\t4660\t63\n\
         1700000000.020000\tremoved\t1\tSF\n",
    ),
    (
        EXCHANGE,
        b"1700000000.000000\tpacket\t1700000000.000000\t54\t54\n\
         1700000000.000000\topened\t1\ttcp\t10.0.0.1\t40001\t10.0.0.80\t80\n\
         1700000000.010000\tpacket\t1700000000.010000\t54\t54\n\
         1700000000.010000\testablished\t1\n\
         1700000000.020000\tpacket\t1700000000.020000\t86\t86\n\
         1700000000.020000\thttp\t1\torig\thead\t32\n\
         1700000000.020000\thttp\t1\torig\tdone\t32\t0\n\
         1700000000.030000\tpacket\t1700000000.030000\t94\t94\n\
         1700000000.030000\thttp\t1\tresp\thead\t38\n\
         1700000000.030000\thttp\t1\tresp\tdone\t40\t2\n\
         1700000000.040000\tpacket\t1700000000.040000\t54\t54\n\
         1700000000.040000\tended\t1\torig\n\
         1700000000.050000\tpacket\t1700000000.050000\t54\t54\n\
         1700000000.050000\tended\t1\tresp\n\
         1700000000.060000\tpacket\t1700000000.060000\t54\t54\n\
         1700000000.060000\tremoved\t1\tSF\n",
    ),
    (
        MERGED,
        b"1700000000.000000\tpacket\t1700000000.000000\t79\t79\n\
         1700000000.000000\topened\t1\tudp\t10.0.0.1\t40000\t10.0.0.53\t53\n\
         1700000000.000000\tdns\t1\torig\t4660\t33\n\
         1700000000.000000\tpacket\t1700000000.000000\t60\t60\n\
         1700000000.000000\topened\t2\ttcp\t10.0.0.1\t40001\t10.0.0.80\t80\n\
         1700000000.010000\tpacket\t1700000000.010000\t60\t60\n\
         1700000000.010000\testablished\t2\n\
         1700000000.015000\tpacket\t1700000000.015000\t60\t60\n\
         1700000000.020000\tpacket\t1700000000.020000\t109\t109\n\
         1700000000.020000\tdns\t1\tresp\t4660\t63\n\
         1700000000.020000\tpacket\t1700000000.020000\t86\t86\n\
         1700000000.020000\thttp\t2\torig\thead\t32\n\
         1700000000.020000\thttp\t2\torig\tdone\t32\t0\n\
         1700000000.025000\tpacket\t1700000000.025000\t62\t62\n\
         1700000000.030000\tpacket\t1700000000.030000\t94\t94\n\
         1700000000.030000\thttp\t2\tresp\thead\t38\n\
         1700000000.030000\thttp\t2\tresp\tdone\t40\t2\n\
         1700000000.040000\tpacket\t1700000000.040000\t60\t60\n\
         1700000000.040000\tended\t2\torig\n\
         1700000000.050000\tpacket\t1700000000.050000\t60\t60\n\
         1700000000.050000\tended\t2\tresp\n\
         1700000000.060000\tpacket\t1700000000.060000\t60\t60\n\
         1700000000.060000\tremoved\t1\tSF\n\
         1700000000.060000\tremoved\t2\tSF\n",
    ),
];

/// Captures in which answers come first, or have bodies of no known length.
pub const ANSWERS: &[Row] = &[
    (
        ANSWERS_FIRST,
        b"1700000000.000000\tpacket\t1700000000.000000\t54\t54\n\
         1700000000.000000\topened\t1\ttcp\t10.0.0.1\t40001\t10.0.0.80\t80\n\
         1700000000.010000\tpacket\t1700000000.010000\t54\t54\n\
         1700000000.010000\testablished\t1\n\
         1700000000.020000\tpacket\t1700000000.020000\t94\t94\n\
         1700000000.030000\tpacket\t1700000000.030000\t81\t81\n\
         1700000000.040000\tpacket\t1700000000.040000\t93\t93\n\
         1700000000.040000\thttp\t1\torig\thead\t20\n\
         1700000000.040000\thttp\t1\torig\tdone\t20\t0\n\
         1700000000.040000\thttp\t1\torig\thead\t39\n\
         1700000000.040000\thttp\t1\torig\tdone\t39\t0\n\
         1700000000.040000\thttp\t1\tresp\thead\t40\n\
         1700000000.040000\thttp\t1\tresp\tdone\t40\t0\n\
         1700000000.040000\thttp\t1\tresp\thead\t67\n\
         1700000000.040000\thttp\t1\tresp\tdone\t67\t0\n\
         1700000000.040000\tremoved\t1\tS1\n",
    ),
    (
        CHUNKS,
        b"1700000000.000000\tpacket\t1700000000.000000\t54\t54\n\
         1700000000.000000\topened\t1\ttcp\t10.0.0.1\t40001\t10.0.0.80\t80\n\
         1700000000.010000\tpacket\t1700000000.010000\t54\t54\n\
         1700000000.010000\testablished\t1\n\
         1700000000.020000\tpacket\t1700000000.020000\t90\t90\n\
         1700000000.020000\thttp\t1\torig\thead\t18\n\
         1700000000.020000\thttp\t1\torig\tdone\t18\t0\n\
         1700000000.020000\thttp\t1\torig\thead\t36\n\
         1700000000.020000\thttp\t1\torig\tdone\t36\t0\n\
         1700000000.030000\tpacket\t1700000000.030000\t120\t120\n\
         1700000000.030000\thttp\t1\tresp\thead\t66\n\
         1700000000.040000\tpacket\t1700000000.040000\t77\t77\n\
         1700000000.040000\thttp\t1\tresp\tdone\t89\t3\n\
         1700000000.050000\tpacket\t1700000000.050000\t78\t78\n\
         1700000000.050000\thttp\t1\tresp\thead\t108\n\
         1700000000.050000\thttp\t1\tresp\tdone\t113\t5\n\
         1700000000.050000\tended\t1\tresp\n\
         1700000000.050000\tremoved\t1\tS3\n",
    ),
];

/// Captures that lack bytes.
pub const GAPS: &[Row] = &[
    (
        GAP_IN_BODY,
        b"1700000000.000000\tpacket\t1700000000.000000\t54\t54\n\
         1700000000.000000\topened\t1\ttcp\t10.0.0.1\t40001\t10.0.0.80\t80\n\
         1700000000.010000\tpacket\t1700000000.010000\t54\t54\n\
         1700000000.010000\testablished\t1\n\
         1700000000.020000\tpacket\t1700000000.020000\t72\t72\n\
         1700000000.020000\thttp\t1\torig\thead\t18\n\
         1700000000.020000\thttp\t1\torig\tdone\t18\t0\n\
         1700000000.030000\tpacket\t1700000000.030000\t97\t97\n\
         1700000000.030000\thttp\t1\tresp\thead\t39\n\
         1700000000.040000\tpacket\t1700000000.040000\t54\t54\n\
         1700000000.050000\tpacket\t1700000000.050000\t54\t54\n\
         1700000000.050000\tgap\t1\tresp\t43\t6\n\
         1700000000.050000\thttp\t1\tresp\tdone\t49\t10\n\
         1700000000.050000\tended\t1\tresp\n\
         1700000000.050000\tremoved\t1\tS3\n",
    ),
    (
        GAP_PAST_BODY,
        b"1700000000.000000\tpacket\t1700000000.000000\t54\t54\n\
         1700000000.000000\topened\t1\ttcp\t10.0.0.1\t40001\t10.0.0.80\t80\n\
         1700000000.010000\tpacket\t1700000000.010000\t54\t54\n\
         1700000000.010000\testablished\t1\n\
         1700000000.020000\tpacket\t1700000000.020000\t90\t90\n\
         1700000000.020000\thttp\t1\torig\thead\t18\n\
         1700000000.020000\thttp\t1\torig\tdone\t18\t0\n\
         1700000000.020000\thttp\t1\torig\thead\t36\n\
         1700000000.020000\thttp\t1\torig\tdone\t36\t0\n\
         1700000000.030000\tpacket\t1700000000.030000\t97\t97\n\
         1700000000.030000\thttp\t1\tresp\thead\t39\n\
         1700000000.040000\tpacket\t1700000000.040000\t54\t54\n\
         1700000000.050000\tpacket\t1700000000.050000\t54\t54\n\
         1700000000.050000\tgap\t1\tresp\t43\t8\n\
         1700000000.050000\thttp\t1\tresp\tdone\t49\t10\n\
         1700000000.050000\thttp\t1\tresp\tviolation\t50\t8\n\
         1700000000.050000\tended\t1\tresp\n\
         1700000000.050000\tremoved\t1\tS3\n",
    ),
];

/// That each of these captures has its lines.
fn each_is_listed(alloc: Global, rows: &[Row]) -> Result<(), Fail> {
    for (n, (capture, lines)) in rows.iter().enumerate() {
        let case = Case {
            line: b"list c.pcap",
            inputs: &[(b"c.pcap", capture)],
            status: 0,
            said: lines,
            complained: b"",
            files: &[],
        };
        comes_out(alloc, &case, n)?;
    }
    Ok(())
}

#[test]
fn each_capture_is_listed_line_by_line(rt: HostRuntime) -> Result<(), Fail> {
    let alloc = rt.alloc();
    each_is_listed(alloc, WHOLE)?;
    each_is_listed(alloc, ANSWERS)?;
    each_is_listed(alloc, GAPS)
}

/// A big-endian capture with nanoseconds: a record of 3 bytes at 1.999999999 s, one of 60 of
/// which none were captured at 1 s, and the head of a third.
const HEAD_OF_A_THIRD: [u8; 74] = [
    0xa1, 0xb2, 0x3c, 0x4d, 0, 2, 0, 4, 0, 0, 0, 0, 0, 0, 0, 0, 0, 4, 0, 0, 0, 0, 0, 1, 0, 0, 0, 1,
    0x3b, 0x9a, 0xc9, 0xff, 0, 0, 0, 3, 0, 0, 0, 3, 0xff, 0xff, 0xff, 0, 0, 0, 1, 0, 0, 0, 0, 0, 0,
    0, 0, 0, 0, 0, 60, 0, 0, 0, 2, 0, 0, 0, 0, 0, 0, 0, 1, 0, 0, 0,
];

#[test]
fn a_capture_that_is_cut_is_listed_up_to_there(rt: HostRuntime) -> Result<(), Fail> {
    let case = Case {
        line: b"list c.pcap",
        inputs: &[(b"c.pcap", &HEAD_OF_A_THIRD)],
        status: 4,
        said: b"1.999999\tpacket\t1.999999\t3\t3\n1.999999\tpacket\t1.000000\t0\t60\n",
        complained: b"zeekoff: c.pcap cut at byte 59\n",
        files: &[],
    };
    comes_out(rt.alloc(), &case, 0)
}
