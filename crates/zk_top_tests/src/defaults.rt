use crate::case::{Case, comes_out_over, each_comes_out};
use crate::lists::{EXCHANGE, GAP_IN_BODY, MERGED, QUERY};
use std::test::Fail;
use zk_gen::capture;

/// The lines of each log of the default scripts before its rows.
pub const CONN: &[u8] =
    b"#separator \\x09\n#set_separator\t,\n#empty_field\t(empty)\n#unset_field\t-\n#path\tconn\n#open\t2023-11-14-22-13-20\n\
          #fields\tts\tuid\tid.orig_h\tid.orig_p\tid.resp_h\tid.resp_p\tproto\tduration\torig_bytes\tresp_bytes\tconn_state\t\
          missed_bytes\thistory\torig_pkts\torig_ip_bytes\tresp_pkts\tresp_ip_bytes\n\
          #types\ttime\tstring\taddr\tport\taddr\tport\tenum\tinterval\tcount\tcount\tstring\tcount\tstring\tcount\tcount\tcount\tcount\n";

pub const DNS: &[u8] =
    b"#separator \\x09\n#set_separator\t,\n#empty_field\t(empty)\n#unset_field\t-\n#path\tdns\n#open\t2023-11-14-22-13-20\n\
          #fields\tts\tuid\tid.orig_h\tid.orig_p\tid.resp_h\tid.resp_p\tproto\ttrans_id\tquery\tqclass\tqtype\trcode\tAA\tTC\tRD\tRA\t\
          answers\tTTLs\n\
          #types\ttime\tstring\taddr\tport\taddr\tport\tenum\tcount\tstring\tcount\tcount\tcount\tbool\tbool\tbool\tbool\t\
          vector[string]\tvector[interval]\n";

const HTTP: &[u8] =
    b"#separator \\x09\n#set_separator\t,\n#empty_field\t(empty)\n#unset_field\t-\n#path\thttp\n#open\t2023-11-14-22-13-20\n\
          #fields\tts\tuid\tid.orig_h\tid.orig_p\tid.resp_h\tid.resp_p\ttrans_depth\tmethod\thost\turi\tversion\tuser_agent\t\
          request_body_len\tresponse_body_len\tstatus_code\tstatus_msg\n\
          #types\ttime\tstring\taddr\tport\taddr\tport\tcount\tstring\tstring\tstring\tstring\tstring\tcount\tcount\tcount\tstring\n";

/// The last line of each.
pub const CLOSE: &[u8] = b"#close\t2023-11-14-22-13-20\n";

/// Captures of one exchange, and the three logs of each; one without a row has no file.
const SINGLE: &[Case] = &[
    Case {
        line: b"run -r c.pcap",
        inputs: &[(b"c.pcap", QUERY)],
        status: 0,
        said: b"",
        complained: b"",
        files: &[
            (
                b"conn.log",
                &[
                    CONN,
                    b"1700000000.000000\tC1\t10.0.0.1\t40000\t10.0.0.53\t53\tudp\t0.020000\t33\t63\tSF\t0\tDd\t1\t61\t1\t91\n",
                    CLOSE,
                ],
            ),
            (
                b"dns.log",
                &[
                    DNS,
                    b"1700000000.000000\tC1\t10.0.0.1\t40000\t10.0.0.53\t53\tudp\t4660\twww.example.com\t1\t1\t0\tF\tF\tT\tT\t\
              example.com,93.184.216.34\t300.000000,300.000000\n",
                    CLOSE,
                ],
            ),
            (b"http.log", &[]),
        ],
    },
    Case {
        line: b"run -r c.pcap",
        inputs: &[(b"c.pcap", EXCHANGE)],
        status: 0,
        said: b"",
        complained: b"",
        files: &[
            (
                b"conn.log",
                &[
                    CONN,
                    b"1700000000.000000\tC1\t10.0.0.1\t40001\t10.0.0.80\t80\ttcp\t0.060000\t32\t40\tSF\t0\tShDdFfA\t4\t192\t3\t160\n",
                    CLOSE,
                ],
            ),
            (b"dns.log", &[]),
            (
                b"http.log",
                &[
                    HTTP,
                    b"1700000000.020000\tC1\t10.0.0.1\t40001\t10.0.0.80\t80\t1\tGET\ta.test\t/\t1.1\t-\t0\t2\t200\tOK\n",
                    CLOSE,
                ],
            ),
        ],
    },
];

/// Captures of several exchanges or with missed bytes, and the same of each.
const FURTHER: &[Case] = &[
    Case {
        line: b"run -r c.pcap",
        inputs: &[(b"c.pcap", MERGED)],
        status: 0,
        said: b"",
        complained: b"",
        files: &[
            (
                b"conn.log",
                &[
                    CONN,
                    b"1700000000.000000\tC1\t10.0.0.1\t40000\t10.0.0.53\t53\tudp\t0.020000\t33\t63\tSF\t0\tDd\t1\t61\t1\t91\n\
              1700000000.000000\tC2\t10.0.0.1\t40001\t10.0.0.80\t80\ttcp\t0.060000\t32\t40\tSF\t0\tShDdFfA\t4\t192\t3\t160\n",
                    CLOSE,
                ],
            ),
            (
                b"dns.log",
                &[
                    DNS,
                    b"1700000000.000000\tC1\t10.0.0.1\t40000\t10.0.0.53\t53\tudp\t4660\twww.example.com\t1\t1\t0\tF\tF\tT\tT\t\
              example.com,93.184.216.34\t300.000000,300.000000\n",
                    CLOSE,
                ],
            ),
            (
                b"http.log",
                &[
                    HTTP,
                    b"1700000000.020000\tC2\t10.0.0.1\t40001\t10.0.0.80\t80\t1\tGET\ta.test\t/\t1.1\t-\t0\t2\t200\tOK\n",
                    CLOSE,
                ],
            ),
        ],
    },
    // The 6 bytes that were not captured are missed bytes.
    Case {
        line: b"run -r c.pcap",
        inputs: &[(b"c.pcap", GAP_IN_BODY)],
        status: 0,
        said: b"",
        complained: b"",
        files: &[
            (
                b"conn.log",
                &[
                    CONN,
                    b"1700000000.000000\tC1\t10.0.0.1\t40001\t10.0.0.80\t80\ttcp\t0.050000\t18\t49\tS3\t6\tShDdfA\t3\t138\t3\t163\n",
                    CLOSE,
                ],
            ),
            (b"dns.log", &[]),
            (
                b"http.log",
                &[
                    HTTP,
                    b"1700000000.020000\tC1\t10.0.0.1\t40001\t10.0.0.80\t80\t1\tGET\t-\t/\t1.1\t-\t0\t10\t200\tOK\n",
                    CLOSE,
                ],
            ),
        ],
    },
];

/// An exchange of which each byte is a segment of its own, most of them twice and in falling order.
const BYTE_BY_BYTE: Case = Case {
    line: b"run -r c.pcap",
    inputs: &[],
    status: 0,
    said: b"",
    complained: b"",
    files: &[
        (
            b"conn.log",
            &[
                CONN,
                b"1700000000.000000\tC1\t10.1.0.0\t40001\t10.0.0.80\t80\ttcp\t0.060000\t32\t40\tSF\t0\tShDdFfA\t66\t2703\t81\t3319\n",
                CLOSE,
            ],
        ),
        (b"dns.log", &[]),
        (
            b"http.log",
            &[
                HTTP,
                b"1700000000.020000\tC1\t10.1.0.0\t40001\t10.0.0.80\t80\t1\tGET\ta.test\t/\t1.1\t-\t0\t2\t200\tOK\n",
                CLOSE,
            ],
        ),
    ],
};

#[test]
fn the_default_scripts_write_their_logs(rt: HostRuntime) -> Result<(), Fail> {
    let alloc = rt.alloc();
    each_comes_out(alloc, SINGLE)?;
    each_comes_out(alloc, FURTHER)
}

#[test]
fn an_exchange_cut_byte_by_byte_is_logged_alike(rt: HostRuntime) -> Result<(), Fail> {
    let alloc = rt.alloc();
    let bytes = capture(alloc, 2, 1)?;
    comes_out_over(alloc, &[(b"c.pcap", bytes.as_slice())], &BYTE_BY_BYTE, 0)
}
