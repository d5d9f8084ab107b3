/// The name of the script that writes dns.log.
pub const NAME: &[u8] = b"base/dns.zeek";

/// Its text.
pub const TEXT: &[u8] = br#"module DNS;

export {
    redef enum Log::ID += { LOG };

    type Info: record {
        ts: time &log;
        uid: string &log;
        id: conn_id &log;
        proto: transport_proto &log;
        trans_id: count &log;
        query: string &log &optional;
        qclass: count &log &optional;
        qtype: count &log &optional;
        rcode: count &log &optional;
        AA: bool &log &default=F;
        TC: bool &log &default=F;
        RD: bool &log &default=F;
        RA: bool &log &default=F;
        answers: vector of string &log &optional;
        TTLs: vector of interval &log &optional;
    };

    global log_dns: event(rec: Info);
}

redef record connection += {
    dns: table[count] of DNS::Info;
};

event zeek_init() &priority=5
    {
    Log::create_stream(LOG, [$columns=Info, $ev=log_dns, $path="dns"]);
    }

function info(c: connection, m: dns_msg): Info
    {
    if ( m$id !in c$dns )
        c$dns[m$id] = Info($ts=network_time(), $uid=c$uid, $id=c$id, $proto=c$proto, $trans_id=m$id);

    return c$dns[m$id];
    }

function answer(c: connection, m: dns_msg, a: dns_answer, s: string)
    {
    local i = info(c, m);

    if ( ! i?$answers )
        {
        i$answers = vector();
        i$TTLs = vector();
        }

    i$answers += s;
    i$TTLs += a$TTL;
    }

event dns_request(c: connection, msg: dns_msg, query: string, qtype: count, qclass: count)
    {
    local i = info(c, msg);
    i$query = query;
    i$qtype = qtype;
    i$qclass = qclass;
    i$RD = msg$RD;
    }

event dns_A_reply(c: connection, msg: dns_msg, ans: dns_answer, a: addr)
    {
    answer(c, msg, ans, cat(a));
    }

event dns_AAAA_reply(c: connection, msg: dns_msg, ans: dns_answer, a: addr)
    {
    answer(c, msg, ans, cat(a));
    }

event dns_NS_reply(c: connection, msg: dns_msg, ans: dns_answer, name: string)
    {
    answer(c, msg, ans, name);
    }

event dns_CNAME_reply(c: connection, msg: dns_msg, ans: dns_answer, name: string)
    {
    answer(c, msg, ans, name);
    }

event dns_PTR_reply(c: connection, msg: dns_msg, ans: dns_answer, name: string)
    {
    answer(c, msg, ans, name);
    }

event dns_MX_reply(c: connection, msg: dns_msg, ans: dns_answer, name: string, preference: count)
    {
    answer(c, msg, ans, name);
    }

event dns_TXT_reply(c: connection, msg: dns_msg, ans: dns_answer, strs: string_vec)
    {
    answer(c, msg, ans, join_string_vec(strs, " "));
    }

event dns_end(c: connection, msg: dns_msg) &priority=-5
    {
    if ( ! msg$QR )
        return;

    local i = info(c, msg);
    i$rcode = msg$rcode;
    i$AA = msg$AA;
    i$TC = msg$TC;
    i$RD = msg$RD;
    i$RA = msg$RA;
    delete c$dns[msg$id];
    Log::write(LOG, i);
    }

event connection_state_remove(c: connection)
    {
    for ( n, i in c$dns )
        Log::write(LOG, i);
    }
"#;
