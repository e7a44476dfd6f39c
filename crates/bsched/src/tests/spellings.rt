//! Imports and requests in odd spellings: what CSV and JSON allow, and what they do not.

pub const ROWS: &str = r#"
~ call scheduler {"authenticator":"$","rpc_seqno":$,"host_info":{"host_cpid":"$","p_fpops":1000,"m_nbytes":8000,"d_free":9000},"platform_name":"linux"$}
~ units import/workunits/$ "name,app,min_quorum,target_nresults,max_error_results,max_total_results,max_success_results,delay_bound,rsc_fpops_est,rsc_memory_bound,rsc_disk_bound,credit\n$\n"

= imports in odd spellings
# the first has quotes, all line ends and empty lines between; the second a mark of byte order, and a quoted name that the end of the text ends
> 1970-01-01T00:00:00Z import/accounts/a "\"authenticator\",\"name\"\r\"k4\",\"A\"\"n,n\"\r\n\n\rk5,a\"b\n"
< 200 {"batch":"a","kind":"accounts","rows":2}
> 1970-01-01T00:00:00Z import/accounts/b "\ufeff\nauthenticator,name\nk6,\"x\ny"
< 200 {"batch":"b","kind":"accounts","rows":1}
> 1970-01-01T00:00:00Z import/accounts/c "authenticator,name"
< 200 {"batch":"c","kind":"accounts","rows":0}
> 1970-01-01T00:00:00Z import/accounts/d ""
< 400 {"column":0,"error":"bad_csv","number":14,"row":0}
> 1970-01-01T00:00:00Z import/accounts/d "\n\r"
< 400 {"column":0,"error":"bad_csv","number":14,"row":0}
> 1970-01-01T00:00:00Z import/accounts/d "\ufeff"
< 400 {"column":0,"error":"bad_csv","number":14,"row":0}
> 1970-01-01T00:00:00Z import/accounts/d "authenticator,Name\n"
< 400 {"column":2,"error":"bad_csv","number":14,"row":0}
> 1970-01-01T00:00:00Z import/accounts/d "authenticator\n"
< 400 {"column":0,"error":"bad_csv","number":14,"row":0}
> 1970-01-01T00:00:00Z import/accounts/d "authenticator,name,\n"
< 400 {"column":0,"error":"bad_csv","number":14,"row":0}
> 1970-01-01T00:00:00Z import/accounts/d "authenticator,name\nk7\n"
< 400 {"column":0,"error":"bad_csv","number":14,"row":1}
> 1970-01-01T00:00:00Z import/accounts/d "authenticator,name\nk7,x\n\n\na b,\n"
< 400 {"column":1,"error":"bad_csv","number":14,"row":2}
> 1970-01-01T00:00:00Z import/accounts/d "authenticator,name\nk7,\n"
< 400 {"column":2,"error":"bad_csv","number":14,"row":1}
> 1970-01-01T00:00:00Z import/accounts/d "\ufeff\ufeffauthenticator,name\n"
< 400 {"column":1,"error":"bad_csv","number":14,"row":0}
> 1970-01-01T00:00:00Z import/accounts/d "authenticator,name\nk7,\"xxxxxxxxxxxxxxxxxxxxxxxxxxxxxxxxxxxxxxxxxxxxxxxxxxxxxxxxxxxxxxxxx"
< 400 {"column":2,"error":"bad_csv","number":14,"row":1}
> 1970-01-01T00:00:00Z import/accounts/a "x"
< 409 {"error":"batch_reused","number":17}
> 1970-01-01T00:00:00Z import/units/a "x"
< 404 {"error":"no_route","number":2}
> 1970-01-01T00:16:40Z call k4 1 c1
< 200 {"end_word":"enough","host_total_credit":0,"hostid":1,"request_delay":60,"result_abort":[],"result_ack":[],"results":[],"rpc_seqno":1,"user_name":"A\"n,n","user_total_credit":0}
> 1970-01-01T00:16:40Z call k6 1 c1
< 200 {"end_word":"enough","host_total_credit":0,"hostid":2,"request_delay":60,"result_abort":[],"result_ack":[],"results":[],"rpc_seqno":1,"user_name":"x\ny","user_total_credit":0}

= imports of applications and versions at their bounds
> 1970-01-01T00:00:00Z import/apps/n "name,agreement\na,within:1000000001\n"
< 400 {"column":2,"error":"bad_csv","number":14,"row":1}
> 1970-01-01T00:00:00Z import/apps/n "name,agreement\na,within:01\n"
< 400 {"column":2,"error":"bad_csv","number":14,"row":1}
> 1970-01-01T00:00:00Z import/apps/n "name,agreement\na,within:0\nb,within:1000000000\n"
< 200 {"batch":"n","kind":"apps","rows":2}
> 1970-01-01T00:00:00Z import/versions/n "app,platform,version_num\na,linux,1000001\n"
< 400 {"column":3,"error":"bad_csv","number":14,"row":1}
> 1970-01-01T00:00:00Z import/versions/n "app,platform,version_num\na,linux,1000000\nb,linux,1\n"
< 200 {"batch":"n","kind":"versions","rows":2}

= imports of workunits at their bounds
# the least faulty column is told; what a good column bounds is faulty beside it
> 1970-01-01T00:00:00Z units u3 a,dock,2,2,3,5,4,7200,3600000,1000,1000
< 400 {"column":0,"error":"bad_csv","number":14,"row":1}
> 1970-01-01T00:00:00Z import/workunits/u3 "name,app,min_quorum,target_nresults,max_error_results,max_total_results,max_success_results,delay_bound,rsc_fpops_est,rsc_memory_bound,rsc_disk_bound,credit\na,dock,2,2,3,5,4,7200,3600000,1000,1000,"
< 400 {"column":12,"error":"bad_csv","number":14,"row":1}
> 1970-01-01T00:00:00Z units u3 a,dock,101,101,3,5,4,7200,3600000,1000,1000,5000
< 400 {"column":3,"error":"bad_csv","number":14,"row":1}
> 1970-01-01T00:00:00Z units u3 a,dock,2,1,3,5,4,7200,3600000,1000,1000,5000
< 400 {"column":4,"error":"bad_csv","number":14,"row":1}
> 1970-01-01T00:00:00Z units u3 a,dock,2,3,3,2,4,7200,3600000,1000,1000,5000
< 400 {"column":6,"error":"bad_csv","number":14,"row":1}
> 1970-01-01T00:00:00Z units u3 a,dock,2,2,3,5,4,0,3600000,1000,1000,100000001
< 400 {"column":8,"error":"bad_csv","number":14,"row":1}
> 1970-01-01T00:00:00Z units u3 a,nope,2,2,3,5,4,7200,3600000,1000,1000,5000
< 409 {"error":"unknown_reference","number":16,"row":1}
> 1970-01-01T00:00:00Z units u3 a,dock,100,100,100,100,100,100000000,1000000000000000000,1000000000000000000,1000000000000000000,100000000\nb,dock,1,1,0,1,0,1,1,0,0,0
< 200 {"batch":"u3","kind":"workunits","rows":2}

= requests that are refused
> 1970-01-01T00:16:40Z call k1 1 c1 ,"hostid":-0
< 400 {"error":"bad_member","member":"hostid","number":7}
> 1970-01-01T00:16:40Z call k1 1 c1 ,"hostid":0.0
< 400 {"error":"bad_member","member":"hostid","number":7}
> 1970-01-01T00:16:40Z call k1 1 c1 ,"hostid":null
< 400 {"error":"bad_member","member":"hostid","number":7}
> 1970-01-01T00:16:40Z call k1 1 c1 ,"hostid":2147483648
< 400 {"error":"bad_member","member":"hostid","number":7}
> 1970-01-01T00:16:40Z call k1 1 c1 ,"hostid":18446744073709551616
< 400 {"error":"bad_member","member":"hostid","number":7}
> 1970-01-01T00:16:40Z call k1 1 c1 ,"x":1e400
< 400 {"error":"bad_json","number":6}
> 1970-01-01T00:16:40Z call k1 1 c1 ,"x":"\ud800"
< 400 {"error":"bad_json","number":6}
> 1970-01-01T00:16:40Z call k1 1 c1 ,"x":"\udc00"
< 400 {"error":"bad_json","number":6}
> 1970-01-01T00:16:40Z call k1 1 c1 ,
< 400 {"error":"bad_json","number":6}
> 1970-01-01T00:16:40Z call k1 1 c1 }
< 400 {"error":"bad_json","number":6}
> 1970-01-01T00:16:40Z call k1 1 c1 ,"x":01
< 400 {"error":"bad_json","number":6}
> 1970-01-01T00:16:40Z call k1 1 c1 ,"results":[{"name":"q_0","exit_status":-0}]
< 400 {"error":"bad_member","member":"results","number":7}
> 1970-01-01T00:16:40Z call k1 1 c1 ,"results":[{"name":"q_0","exit_status":0,"output":null}]
< 400 {"error":"bad_member","member":"results","number":7}
> 1970-01-01T00:16:40Z call k1 1 c1 ,"work_req_seconds":1000000001,"alt_platforms":null
< 400 {"error":"bad_member","member":"alt_platforms","number":7}
> 1970-01-01T00:16:40Z call k1 1 c1 ,"other_results":[""],"work_req_seconds":1e1
< 400 {"error":"bad_member","member":"work_req_seconds","number":7}
> 1970-01-01T00:16:40Z scheduler {"authenticator":"k1","rpc_seqno":1,"host_info":{"host_cpid":"c1","p_fpops":1000,"m_nbytes":8000,"d_free":9000},"platform_name":"linux","platform_name":"a b","rpc_seqno":"1"}
< 400 {"error":"bad_member","member":"rpc_seqno","number":7}
> 1970-01-01T00:16:40Z call k1 1 c1 ,"alt_platforms":["a","b","c","d","e","f","g","h"]
< 400 {"error":"bad_member","member":"alt_platforms","number":7}
> 1970-01-01T00:16:40Z call k1 1 c1 ,"other_results":null
< 400 {"error":"bad_member","member":"other_results","number":7}
# a member within one is told with both names
> 1970-01-01T00:16:40Z call k1 1 c1 ,"host_info":{"host_cpid":"c1","p_fpops":0}
< 400 {"error":"bad_member","member":"host_info.p_fpops","number":7}
# a word of 64 letters, which names no account, and one more letter
> 1970-01-01T00:16:40Z call k1 1 c1 ,"authenticator":"xxxxxxxxxxxxxxxxxxxxxxxxxxxxxxxxxxxxxxxxxxxxxxxxxxxxxxxxxxxxxxxx"
< 403 {"error":"bad_account","number":8}
> 1970-01-01T00:16:40Z call k1 1 c1 ,"authenticator":"xxxxxxxxxxxxxxxxxxxxxxxxxxxxxxxxxxxxxxxxxxxxxxxxxxxxxxxxxxxxxxxxx"
< 400 {"error":"bad_member","member":"authenticator","number":7}

= one text in two spellings, and another text
# a member twice, of which the last counts, numbers that no member may have where it is not known, and a letter by its number
> 1970-01-01T00:16:40Z call k1 1 c1 ,"rpc_seqno":7,"rpc_seqno":1,"y":18446744073709551616,"z":-0,"w":1e-400
< 200 {"end_word":"enough","host_total_credit":0,"hostid":1,"request_delay":60,"result_abort":[],"result_ack":[],"results":[],"rpc_seqno":1,"user_name":"Ann","user_total_credit":0}
> 1970-01-01T00:16:40Z scheduler {"rpc_seqno":"x","\u0061uthenticator":"k1","rpc_seqno":1,"hostid":0,"host_info":{"host_cpid":"c1","p_fpops":1000,"m_nbytes":8000,"d_free":9000},"platform_name":"linux"}
< 200 {"end_word":"enough","host_total_credit":0,"hostid":1,"request_delay":60,"result_abort":[],"result_ack":[],"results":[],"rpc_seqno":1,"user_name":"Ann","user_total_credit":0}
# defaults that are written out
> 1970-01-01T00:16:40Z call k1 1 c1 ,"results":[],"work_req_seconds":0,"alt_platforms":[]
< 200 {"end_word":"enough","host_total_credit":0,"hostid":1,"request_delay":60,"result_abort":[],"result_ack":[],"results":[],"rpc_seqno":1,"user_name":"Ann","user_total_credit":0}
> 1970-01-01T00:16:40Z call k1 1 c1 ,"hostid":1
< 409 {"error":"reused","last":1,"number":11}
# a list that is absent has no default
> 1970-01-01T00:16:40Z call k1 1 c1 ,"other_results":[]
< 409 {"error":"reused","last":1,"number":11}
# as many platforms as there may be, and names that JSON writes in its own way
> 1970-01-01T00:16:40Z call k1 2 c1 ,"other_results":["a\"b","caf\u00e9"],"alt_platforms":["a","b","c","d","e","f","g"]
< 200 {"end_word":"enough","host_total_credit":0,"hostid":1,"request_delay":60,"result_abort":["a\"b","café"],"result_ack":[],"results":[],"rpc_seqno":2,"user_name":"Ann","user_total_credit":0}
"#;
