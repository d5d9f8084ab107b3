/// The name of the script that writes conn.log.
pub const NAME: &[u8] = b"base/conn.zeek";

/// Its text.
pub const TEXT: &[u8] = br#"module Conn;

export {
    redef enum Log::ID += { LOG };

    type Info: record {
        ts: time &log;
        uid: string &log;
        id: conn_id &log;
        proto: transport_proto &log;
        duration: interval &log;
        orig_bytes: count &log &optional;
        resp_bytes: count &log &optional;
        conn_state: string &log;
        missed_bytes: count &log;
        history: string &log &wire;
        orig_pkts: count &log &wire;
        orig_ip_bytes: count &log &wire;
        resp_pkts: count &log &wire;
        resp_ip_bytes: count &log &wire;
    };

    global log_conn: event(rec: Info);
}

redef record connection += {
    missed_bytes: count &default=0;
};

event zeek_init() &priority=5
    {
    Log::create_stream(LOG, [$columns=Info, $ev=log_conn, $path="conn"]);
    }

event content_gap(c: connection, is_orig: bool, seq: count, length: count) &priority=5
    {
    c$missed_bytes += length;
    }

event connection_state_remove(c: connection) &priority=-5
    {
    local i = Info($ts=c$start_time, $uid=c$uid, $id=c$id, $proto=c$proto, $duration=c$duration,
        $conn_state=c$conn_state, $missed_bytes=c$missed_bytes, $history=c$history,
        $orig_pkts=c$orig$num_pkts, $orig_ip_bytes=c$orig$num_bytes_ip,
        $resp_pkts=c$resp$num_pkts, $resp_ip_bytes=c$resp$num_bytes_ip);

    if ( c$orig?$size )
        i$orig_bytes = c$orig$size;

    if ( c$resp?$size )
        i$resp_bytes = c$resp$size;

    Log::write(LOG, i);
    }
"#;
