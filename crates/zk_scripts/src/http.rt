/// The name of the script that writes http.log.
pub const NAME: &[u8] = b"base/http.zeek";

/// Its text.
pub const TEXT: &[u8] = br#"module HTTP;

export {
    redef enum Log::ID += { LOG };

    type Info: record {
        ts: time &log;
        uid: string &log;
        id: conn_id &log;
        trans_depth: count &log;
        method: string &log;
        host: string &log &optional;
        uri: string &log;
        version: string &log;
        user_agent: string &log &optional;
        request_body_len: count &log &default=0;
        response_body_len: count &log &default=0;
        status_code: count &log &optional;
        status_msg: string &log &optional;
    };

    type State: record {
        asked: count &default=0;
        told: count &default=0;
        interim: bool &default=F;
        pending: table[count] of Info;
    };

    global log_http: event(rec: Info);
}

redef record connection += {
    http: HTTP::State &optional;
};

event zeek_init() &priority=5
    {
    Log::create_stream(LOG, [$columns=Info, $ev=log_http, $path="http"]);
    }

event http_request(c: connection, method: string, original_URI: string, unescaped_URI: string,
    version: string) &priority=5
    {
    if ( ! c?$http )
        c$http = State();

    local s = c$http;
    ++s$asked;
    s$pending[s$asked] = Info($ts=network_time(), $uid=c$uid, $id=c$id, $trans_depth=s$asked,
        $method=method, $uri=original_URI, $version=version);
    }

event http_header(c: connection, is_orig: bool, original_name: string, name: string, value: string)
    {
    if ( ! is_orig )
        return;

    local i = c$http$pending[c$http$asked];

    if ( name == "HOST" )
        i$host = value;

    if ( name == "USER-AGENT" )
        i$user_agent = value;
    }

event http_reply(c: connection, version: string, code: count, reason: string) &priority=5
    {
    local s = c$http;
    s$interim = code >= 100 && code < 200 && code != 101;

    if ( s$interim )
        return;

    ++s$told;
    s$pending[s$told]$status_code = code;
    s$pending[s$told]$status_msg = reason;
    }

event http_message_done(c: connection, is_orig: bool, stat: http_message_stat) &priority=-5
    {
    local s = c$http;

    if ( is_orig )
        {
        if ( s$asked in s$pending )
            s$pending[s$asked]$request_body_len = stat$body_length;

        return;
        }

    if ( s$interim )
        return;

    local i = s$pending[s$told];
    i$response_body_len = stat$body_length;
    delete s$pending[s$told];
    Log::write(LOG, i);
    }

event connection_state_remove(c: connection)
    {
    if ( c?$http )
        for ( n, i in c$http$pending )
            Log::write(LOG, i);
    }
"#;
