//! Whole exchanges of HTTP, and the units that they have.

/// A side of an exchange: its bytes, the gap behind them, and whether it then ends.
#[derive(Clone, Copy)]
pub struct Sent {
    pub bytes: &'static [u8],
    pub gap: u64,
    pub ends: bool,
}

/// An exchange, and the units of its requests and of its responses.
pub struct Exchange {
    pub requests: Sent,
    pub responses: Sent,
    pub asked: &'static str,
    pub answered: &'static str,
}

/// Exchanges, the last of them from captures; their units were told by other programs or by hand.
pub static EXCHANGES: [Exchange; 10] = [
    // Chunks count, whatever Content-Length says, and lines behind them don't; then a body up to the end.
    Exchange {
        requests: Sent {
            bytes: b"GET / HTTP/1.1\r\n\r\nGET / HTTP/1.1\r\n\r\n",
            gap: 0,
            ends: false,
        },
        responses: Sent {
            bytes: b"HTTP/1.1 200 OK\r\nTransfer-Encoding: chunked\r\nContent-Length: 9\r\n\r\n3;x=y\r\nabc\r\n0\r\nT: u\r\n\r\nHTTP/1.0 200 OK\r\n\r\nhello",
            gap: 0,
            ends: true,
        },
        asked: "head 18\ndone 18 0 14 0\nhead 36\ndone 36 0 14 0\n",
        answered: "head 66\ndone 89 3 58 0\nhead 108\ndone 113 5 15 0\n",
    },
    // A gap in a body up to the end.
    Exchange {
        requests: Sent {
            bytes: b"GET / HTTP/1.1\r\n\r\n",
            gap: 0,
            ends: false,
        },
        responses: Sent {
            bytes: b"HTTP/1.0 200 OK\r\n\r\nhello",
            gap: 4,
            ends: true,
        },
        asked: "head 18\ndone 18 0 14 0\n",
        answered: "head 19\ndone 28 9 15 4\n",
    },
    // A gap in a head.
    Exchange {
        requests: Sent {
            bytes: b"GET / HT",
            gap: 3,
            ends: false,
        },
        responses: Sent {
            bytes: b"",
            gap: 0,
            ends: false,
        },
        asked: "violation 9 8\n",
        answered: "",
    },
    // A gap in a chunk, and in the line end behind it.
    Exchange {
        requests: Sent {
            bytes: b"POST / HTTP/1.1\r\nTransfer-Encoding: chunked\r\n\r\n5\r\nab",
            gap: 4,
            ends: false,
        },
        responses: Sent {
            bytes: b"",
            gap: 0,
            ends: false,
        },
        asked: "head 47\nviolation 56 8\n",
        answered: "",
    },
    // A gap in a trailer.
    Exchange {
        requests: Sent {
            bytes: b"POST / HTTP/1.1\r\nTransfer-Encoding: chunked\r\n\r\n0\r\nT: u",
            gap: 1,
            ends: false,
        },
        responses: Sent {
            bytes: b"",
            gap: 0,
            ends: false,
        },
        asked: "head 47\nviolation 55 8\n",
        answered: "",
    },
    // A chunk's data ended by LF alone; the answer is read all the same.
    Exchange {
        requests: Sent {
            bytes: b"POST / HTTP/1.1\r\nTransfer-Encoding: chunked\r\n\r\n1\r\na\n0\r\n\r\n",
            gap: 0,
            ends: false,
        },
        responses: Sent {
            bytes: b"HTTP/1.1 200 OK\r\nContent-Length: 2\r\n\r\nhi",
            gap: 0,
            ends: false,
        },
        asked: "head 47\nviolation 52 6\n",
        answered: "head 38\ndone 40 2 32 0\n",
    },
    // An interim response is no answer, and a request behind CONNECT waits for the answer, which makes a tunnel.
    Exchange {
        requests: Sent {
            bytes: b"CONNECT a:1 HTTP/1.1\r\n\r\nGET / HTTP/1.1\r\n\r\n",
            gap: 0,
            ends: false,
        },
        responses: Sent {
            bytes: b"HTTP/1.1 100 C\r\n\r\nHTTP/1.1 200 OK\r\n\r\nHTTP",
            gap: 0,
            ends: false,
        },
        asked: "head 24\ndone 24 0 20 0\n",
        answered: "head 18\ndone 18 0 14 0\nhead 37\ntunnel 37\n",
    },
    // More than 100 header lines.
    Exchange {
        requests: Sent {
            bytes: b"GET / HTTP/1.1\na:\na:\na:\na:\na:\na:\na:\na:\na:\na:\na:\na:\na:\na:\na:\na:\na:\na:\na:\na:\na:\na:\na:\na:\na:\na:\na:\na:\na:\na:\na:\na:\na:\na:\na:\na:\na:\na:\na:\na:\na:\na:\na:\na:\na:\na:\na:\na:\na:\na:\na:\na:\na:\na:\na:\na:\na:\na:\na:\na:\na:\na:\na:\na:\na:\na:\na:\na:\na:\na:\na:\na:\na:\na:\na:\na:\na:\na:\na:\na:\na:\na:\na:\na:\na:\na:\na:\na:\na:\na:\na:\na:\na:\na:\na:\na:\na:\na:\na:\na:\na:\n\n",
            gap: 0,
            ends: false,
        },
        responses: Sent {
            bytes: b"",
            gap: 0,
            ends: false,
        },
        asked: "violation 319 3\n",
        answered: "",
    },
    // An upgrade that is refused, and one that is taken.
    Exchange {
        requests: Sent {
            bytes: b"GET / HTTP/1.1\r\nUpgrade: websocket\r\n\r\nGET / HTTP/1.1\r\n\r\nGET / HTTP/1.1\r\n\r\n",
            gap: 0,
            ends: false,
        },
        responses: Sent {
            bytes: b"HTTP/1.1 101 Switching Protocols\r\n\r\nHTTP/1.1 200 OK\r\nContent-Length: 2\r\n\r\nhi",
            gap: 0,
            ends: false,
        },
        asked: "head 38\ndone 38 0 32 0\n",
        answered: "head 36\ntunnel 36\n",
    },
    // A coding of a request that isn't chunked.
    Exchange {
        requests: Sent {
            bytes: b"POST / HTTP/1.1\r\nTransfer-Encoding: gzip\r\n\r\n",
            gap: 0,
            ends: false,
        },
        responses: Sent {
            bytes: b"",
            gap: 0,
            ends: false,
        },
        asked: "head 44\nviolation 44 5\n",
        answered: "",
    },
];

/// A chunk of one byte, a hundred times.
pub const PIECE: &[u8] =
    b"1\r\na\r\n1\r\na\r\n1\r\na\r\n1\r\na\r\n1\r\na\r\n1\r\na\r\n1\r\na\r\n1\r\na\r\n1\r\na\r\n1\r\na\r\n1\r\na\r\n1\r\na\r\n1\r\na\r\n1\r\na\r\n1\r\na\r\n1\r\na\r\n1\r\na\r\n1\r\na\r\n1\r\na\r\n1\r\na\r\n1\r\na\r\n1\r\na\r\n1\r\na\r\n1\r\na\r\n1\r\na\r\n1\r\na\r\n1\r\na\r\n1\r\na\r\n1\r\na\r\n1\r\na\r\n1\r\na\r\n1\r\na\r\n1\r\na\r\n1\r\na\r\n1\r\na\r\n1\r\na\r\n1\r\na\r\n1\r\na\r\n1\r\na\r\n1\r\na\r\n1\r\na\r\n1\r\na\r\n1\r\na\r\n1\r\na\r\n1\r\na\r\n1\r\na\r\n1\r\na\r\n1\r\na\r\n1\r\na\r\n1\r\na\r\n1\r\na\r\n1\r\na\r\n1\r\na\r\n1\r\na\r\n1\r\na\r\n1\r\na\r\n1\r\na\r\n1\r\na\r\n1\r\na\r\n1\r\na\r\n1\r\na\r\n1\r\na\r\n1\r\na\r\n1\r\na\r\n1\r\na\r\n1\r\na\r\n1\r\na\r\n1\r\na\r\n1\r\na\r\n1\r\na\r\n1\r\na\r\n1\r\na\r\n1\r\na\r\n1\r\na\r\n1\r\na\r\n1\r\na\r\n1\r\na\r\n1\r\na\r\n1\r\na\r\n1\r\na\r\n1\r\na\r\n1\r\na\r\n1\r\na\r\n1\r\na\r\n1\r\na\r\n1\r\na\r\n1\r\na\r\n1\r\na\r\n1\r\na\r\n1\r\na\r\n1\r\na\r\n1\r\na\r\n1\r\na\r\n1\r\na\r\n1\r\na\r\n1\r\na\r\n1\r\na\r\n1\r\na\r\n1\r\na\r\n1\r\na\r\n";
