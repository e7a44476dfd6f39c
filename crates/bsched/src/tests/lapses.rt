//! Worked rows of late jobs, and of workunits that fail.

pub const ROWS: &str = r#"
~ call scheduler {"authenticator":"$","rpc_seqno":$,"host_info":{"host_cpid":"$","p_fpops":1000,"m_nbytes":8000,"d_free":9000},"platform_name":"linux"$}
~ units import/workunits/$ "name,app,min_quorum,target_nresults,max_error_results,max_total_results,max_success_results,delay_bound,rsc_fpops_est,rsc_memory_bound,rsc_disk_bound,credit\n$\n"

= a late job is replaced, and its report still counts once
> 1970-01-01T00:00:00Z units u3 w1,dock,2,2,3,5,4,7200,3600000,1000,1000,5000
< 200 {"batch":"u3","kind":"workunits","rows":1}
> 1970-01-01T00:16:40Z call k1 1 c1 ,"work_req_seconds":3600
< 200 {"end_word":"enough","host_total_credit":0,"hostid":1,"request_delay":60,"result_abort":[],"result_ack":[],"results":[{"app_name":"dock","estimate":3600,"name":"w1_0","platform":"linux","report_deadline":8200,"resent":false,"version_num":102,"wu_name":"w1"}],"rpc_seqno":1,"user_name":"Ann","user_total_credit":0}
> 1970-01-01T00:16:40Z call k2 1 c2 ,"work_req_seconds":3600
< 200 {"end_word":"enough","host_total_credit":0,"hostid":2,"request_delay":60,"result_abort":[],"result_ack":[],"results":[{"app_name":"dock","estimate":3600,"name":"w1_1","platform":"linux","report_deadline":8200,"resent":false,"version_num":102,"wu_name":"w1"}],"rpc_seqno":1,"user_name":"Bob","user_total_credit":0}
> 1970-01-01T00:33:20Z call k2 2 c2 ,"results":[{"name":"w1_1","exit_status":0,"output":"ok"}]
< 200 {"end_word":"enough","host_total_credit":0,"hostid":2,"request_delay":60,"result_abort":[],"result_ack":["w1_1"],"results":[],"rpc_seqno":2,"user_name":"Bob","user_total_credit":0}
> 1970-01-01T02:16:40Z tick
< 200 {"lapsed":0}
> 1970-01-01T02:16:41Z tick
< 200 {"lapsed":1}
> 1970-01-01T02:30:00Z call k1 2 c1 ,"results":[{"name":"w1_0","exit_status":0,"output":"ok"}]
< 200 {"end_word":"enough","host_total_credit":5000,"hostid":1,"request_delay":60,"result_abort":[],"result_ack":["w1_0"],"results":[],"rpc_seqno":2,"user_name":"Ann","user_total_credit":5000}
> 1970-01-01T02:30:01Z call k1 3 c1 ,"results":[{"name":"w1_0","exit_status":0,"output":"no"}]
< 200 {"end_word":"enough","host_total_credit":5000,"hostid":1,"request_delay":60,"result_abort":[],"result_ack":["w1_0"],"results":[],"rpc_seqno":3,"user_name":"Ann","user_total_credit":5000}

= a job of a done workunit is late all the same
> 1970-01-01T00:00:00Z units u3 w5,dock,1,2,3,5,4,7200,3600000,1000,1000,5000
< 200 {"batch":"u3","kind":"workunits","rows":1}
> 1970-01-01T00:16:40Z call k1 1 c1 ,"work_req_seconds":3600
< 200 {"end_word":"enough","host_total_credit":0,"hostid":1,"request_delay":60,"result_abort":[],"result_ack":[],"results":[{"app_name":"dock","estimate":3600,"name":"w5_0","platform":"linux","report_deadline":8200,"resent":false,"version_num":102,"wu_name":"w5"}],"rpc_seqno":1,"user_name":"Ann","user_total_credit":0}
> 1970-01-01T00:16:40Z call k2 1 c2 ,"work_req_seconds":3600
< 200 {"end_word":"enough","host_total_credit":0,"hostid":2,"request_delay":60,"result_abort":[],"result_ack":[],"results":[{"app_name":"dock","estimate":3600,"name":"w5_1","platform":"linux","report_deadline":8200,"resent":false,"version_num":102,"wu_name":"w5"}],"rpc_seqno":1,"user_name":"Bob","user_total_credit":0}
> 1970-01-01T00:33:20Z call k2 2 c2 ,"results":[{"name":"w5_1","exit_status":0,"output":"x"}]
< 200 {"end_word":"enough","host_total_credit":5000,"hostid":2,"request_delay":60,"result_abort":[],"result_ack":["w5_1"],"results":[],"rpc_seqno":2,"user_name":"Bob","user_total_credit":5000}
> 1970-01-01T02:16:41Z tick
< 200 {"lapsed":1}
> 1970-01-01T02:16:42Z tick
< 200 {"lapsed":0}
> 1970-01-01T02:30:00Z call k1 2 c1 ,"results":[{"name":"w5_0","exit_status":0,"output":"x"}]
< 200 {"end_word":"enough","host_total_credit":5000,"hostid":1,"request_delay":60,"result_abort":[],"result_ack":["w5_0"],"results":[],"rpc_seqno":2,"user_name":"Ann","user_total_credit":5000}

= a workunit without room for more instances fails
> 1970-01-01T00:00:00Z units u3 t1,dock,2,2,3,2,4,7200,3600000,1000,1000,5000
< 200 {"batch":"u3","kind":"workunits","rows":1}
> 1970-01-01T00:16:40Z call k1 1 c1 ,"work_req_seconds":3600
< 200 {"end_word":"enough","host_total_credit":0,"hostid":1,"request_delay":60,"result_abort":[],"result_ack":[],"results":[{"app_name":"dock","estimate":3600,"name":"t1_0","platform":"linux","report_deadline":8200,"resent":false,"version_num":102,"wu_name":"t1"}],"rpc_seqno":1,"user_name":"Ann","user_total_credit":0}
> 1970-01-01T00:16:40Z call k2 1 c2 ,"work_req_seconds":3600
< 200 {"end_word":"enough","host_total_credit":0,"hostid":2,"request_delay":60,"result_abort":[],"result_ack":[],"results":[{"app_name":"dock","estimate":3600,"name":"t1_1","platform":"linux","report_deadline":8200,"resent":false,"version_num":102,"wu_name":"t1"}],"rpc_seqno":1,"user_name":"Bob","user_total_credit":0}
> 1970-01-01T02:16:41Z tick
< 200 {"lapsed":2}
> 1970-01-01T02:30:00Z call k1 2 c1 ,"results":[{"name":"t1_0","exit_status":0,"output":"ok"}]
< 200 {"end_word":"enough","host_total_credit":0,"hostid":1,"request_delay":60,"result_abort":[],"result_ack":["t1_0"],"results":[],"rpc_seqno":2,"user_name":"Ann","user_total_credit":0}
> 1970-01-01T02:30:00Z hosts/1
< 200 "result,app,sent,deadline,server_state,outcome,validate_state,credit\nt1_0,dock,1970-01-01 00:16:40,1970-01-01 02:16:40,5,1,3,0.000\ntotal,,,,,,,0.000\n"

= a workunit with too many errors fails, and what is lost of it is not sent again
> 1970-01-01T00:00:00Z units u3 e1,dock,2,2,1,5,4,7200,3600000,1000,1000,5000
< 200 {"batch":"u3","kind":"workunits","rows":1}
> 1970-01-01T00:16:40Z call k1 1 c1 ,"work_req_seconds":3600
< 200 {"end_word":"enough","host_total_credit":0,"hostid":1,"request_delay":60,"result_abort":[],"result_ack":[],"results":[{"app_name":"dock","estimate":3600,"name":"e1_0","platform":"linux","report_deadline":8200,"resent":false,"version_num":102,"wu_name":"e1"}],"rpc_seqno":1,"user_name":"Ann","user_total_credit":0}
> 1970-01-01T00:16:40Z call k2 1 c2 ,"work_req_seconds":3600
< 200 {"end_word":"enough","host_total_credit":0,"hostid":2,"request_delay":60,"result_abort":[],"result_ack":[],"results":[{"app_name":"dock","estimate":3600,"name":"e1_1","platform":"linux","report_deadline":8200,"resent":false,"version_num":102,"wu_name":"e1"}],"rpc_seqno":1,"user_name":"Bob","user_total_credit":0}
> 1970-01-01T00:33:20Z call k1 2 c1 ,"results":[{"name":"e1_0","exit_status":1}]
< 200 {"end_word":"enough","host_total_credit":0,"hostid":1,"request_delay":60,"result_abort":[],"result_ack":["e1_0"],"results":[],"rpc_seqno":2,"user_name":"Ann","user_total_credit":0}
> 1970-01-01T00:16:40Z call k3 1 c3 ,"work_req_seconds":3600
< 200 {"end_word":"enough","host_total_credit":0,"hostid":3,"request_delay":60,"result_abort":[],"result_ack":[],"results":[{"app_name":"dock","estimate":3600,"name":"e1_2","platform":"linux","report_deadline":8200,"resent":false,"version_num":102,"wu_name":"e1"}],"rpc_seqno":1,"user_name":"Cid","user_total_credit":0}
> 1970-01-01T00:33:20Z call k3 2 c3 ,"other_results":["e1_2"]
< 200 {"end_word":"enough","host_total_credit":0,"hostid":3,"request_delay":60,"result_abort":[],"result_ack":[],"results":[],"rpc_seqno":2,"user_name":"Cid","user_total_credit":0}
> 1970-01-01T00:33:20Z call k2 2 c2 ,"results":[{"name":"e1_1","exit_status":1}]
< 200 {"end_word":"enough","host_total_credit":0,"hostid":2,"request_delay":60,"result_abort":[],"result_ack":["e1_1"],"results":[],"rpc_seqno":2,"user_name":"Bob","user_total_credit":0}
> 1970-01-01T00:33:20Z call k3 3 c3 ,"other_results":["e1_2"]
< 200 {"end_word":"enough","host_total_credit":0,"hostid":3,"request_delay":60,"result_abort":["e1_2"],"result_ack":[],"results":[],"rpc_seqno":3,"user_name":"Cid","user_total_credit":0}
> 1970-01-01T00:33:20Z call k3 4 c3 ,"other_results":[]
< 200 {"end_word":"enough","host_total_credit":0,"hostid":3,"request_delay":60,"result_abort":[],"result_ack":[],"results":[],"rpc_seqno":4,"user_name":"Cid","user_total_credit":0}

= a workunit with too many successes fails, and no report of it counts
# a third success would have made two that agree
> 1970-01-01T00:00:00Z units u3 s1,dock,2,3,3,5,1,7200,3600000,1000,1000,5000
< 200 {"batch":"u3","kind":"workunits","rows":1}
> 1970-01-01T00:16:40Z call k1 1 c1 ,"work_req_seconds":3600
< 200 {"end_word":"enough","host_total_credit":0,"hostid":1,"request_delay":60,"result_abort":[],"result_ack":[],"results":[{"app_name":"dock","estimate":3600,"name":"s1_0","platform":"linux","report_deadline":8200,"resent":false,"version_num":102,"wu_name":"s1"}],"rpc_seqno":1,"user_name":"Ann","user_total_credit":0}
> 1970-01-01T00:16:40Z call k2 1 c2 ,"work_req_seconds":3600
< 200 {"end_word":"enough","host_total_credit":0,"hostid":2,"request_delay":60,"result_abort":[],"result_ack":[],"results":[{"app_name":"dock","estimate":3600,"name":"s1_1","platform":"linux","report_deadline":8200,"resent":false,"version_num":102,"wu_name":"s1"}],"rpc_seqno":1,"user_name":"Bob","user_total_credit":0}
> 1970-01-01T00:16:40Z call k3 1 c3 ,"work_req_seconds":3600
< 200 {"end_word":"enough","host_total_credit":0,"hostid":3,"request_delay":60,"result_abort":[],"result_ack":[],"results":[{"app_name":"dock","estimate":3600,"name":"s1_2","platform":"linux","report_deadline":8200,"resent":false,"version_num":102,"wu_name":"s1"}],"rpc_seqno":1,"user_name":"Cid","user_total_credit":0}
> 1970-01-01T00:33:20Z call k1 2 c1 ,"results":[{"name":"s1_0","exit_status":0,"output":"a"}]
< 200 {"end_word":"enough","host_total_credit":0,"hostid":1,"request_delay":60,"result_abort":[],"result_ack":["s1_0"],"results":[],"rpc_seqno":2,"user_name":"Ann","user_total_credit":0}
> 1970-01-01T00:33:20Z call k3 2 c3 ,"other_results":["s1_2"]
< 200 {"end_word":"enough","host_total_credit":0,"hostid":3,"request_delay":60,"result_abort":[],"result_ack":[],"results":[],"rpc_seqno":2,"user_name":"Cid","user_total_credit":0}
> 1970-01-01T00:33:20Z call k2 2 c2 ,"results":[{"name":"s1_1","exit_status":0,"output":"b"}]
< 200 {"end_word":"enough","host_total_credit":0,"hostid":2,"request_delay":60,"result_abort":[],"result_ack":["s1_1"],"results":[],"rpc_seqno":2,"user_name":"Bob","user_total_credit":0}
> 1970-01-01T00:33:20Z call k3 3 c3 ,"other_results":["s1_2"]
< 200 {"end_word":"enough","host_total_credit":0,"hostid":3,"request_delay":60,"result_abort":["s1_2"],"result_ack":[],"results":[],"rpc_seqno":3,"user_name":"Cid","user_total_credit":0}
> 1970-01-01T00:33:20Z call k3 4 c3 ,"results":[{"name":"s1_2","exit_status":0,"output":"a"}]
< 200 {"end_word":"enough","host_total_credit":0,"hostid":3,"request_delay":60,"result_abort":[],"result_ack":["s1_2"],"results":[],"rpc_seqno":4,"user_name":"Cid","user_total_credit":0}
"#;
