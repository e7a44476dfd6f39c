//! Worked rows of versions with classes, and of workunits that keep to the class of their first job.

pub const ROWS: &str = r#"
~ call scheduler {"authenticator":"$","rpc_seqno":$,"host_info":{"host_cpid":"$","p_fpops":1000,"m_nbytes":8000,"d_free":9000},"platform_name":"$"$}
~ marked import/workunits/$ "name,app,min_quorum,target_nresults,max_error_results,max_total_results,max_success_results,delay_bound,rsc_fpops_est,rsc_memory_bound,rsc_disk_bound,credit,marked\n$\n"

= a marked workunit is for versions of the class that it was granted with first
> 1970-01-01T00:00:00Z import/versions/v9 "app,platform,version_num,version_class\ndock,linux,103,x\ndock,win,103,y\n"
< 200 {"batch":"v9","kind":"versions","rows":2}
> 1970-01-01T00:00:00Z marked u9 h1,dock,2,2,3,5,4,7200,3600000,1000,1000,5000,1
< 200 {"batch":"u9","kind":"workunits","rows":1}
> 1970-01-01T00:16:40Z call k1 1 c1 linux ,"work_req_seconds":3600
< 200 {"end_word":"enough","host_total_credit":0,"hostid":1,"request_delay":60,"result_abort":[],"result_ack":[],"results":[{"app_name":"dock","estimate":3600,"name":"h1_0","platform":"linux","report_deadline":8200,"resent":false,"version_num":103,"wu_name":"h1"}],"rpc_seqno":1,"user_name":"Ann","user_total_credit":0}
> 1970-01-01T00:16:40Z call k2 1 c2 win ,"work_req_seconds":3600
< 200 {"end_word":"no_eligible_work","host_total_credit":0,"hostid":2,"request_delay":60,"result_abort":[],"result_ack":[],"results":[],"rpc_seqno":1,"user_name":"Bob","user_total_credit":0}
> 1970-01-01T00:16:40Z call k3 1 c3 linux ,"work_req_seconds":3600
< 200 {"end_word":"enough","host_total_credit":0,"hostid":3,"request_delay":60,"result_abort":[],"result_ack":[],"results":[{"app_name":"dock","estimate":3600,"name":"h1_1","platform":"linux","report_deadline":8200,"resent":false,"version_num":103,"wu_name":"h1"}],"rpc_seqno":1,"user_name":"Cid","user_total_credit":0}

= a lost job of a marked workunit is not sent again into another class
> 1970-01-01T00:00:00Z import/versions/v9 "app,platform,version_num,version_class\ndock,linux,103,x\ndock,win,103,y\n"
< 200 {"batch":"v9","kind":"versions","rows":2}
> 1970-01-01T00:00:00Z marked u9 h1,dock,2,2,3,5,4,7200,3600000,1000,1000,5000,1
< 200 {"batch":"u9","kind":"workunits","rows":1}
> 1970-01-01T00:16:40Z call k1 1 c1 linux ,"work_req_seconds":3600
< 200 {"end_word":"enough","host_total_credit":0,"hostid":1,"request_delay":60,"result_abort":[],"result_ack":[],"results":[{"app_name":"dock","estimate":3600,"name":"h1_0","platform":"linux","report_deadline":8200,"resent":false,"version_num":103,"wu_name":"h1"}],"rpc_seqno":1,"user_name":"Ann","user_total_credit":0}
> 1970-01-01T00:16:40Z call k2 1 c2 win ,"work_req_seconds":3600
< 200 {"end_word":"no_eligible_work","host_total_credit":0,"hostid":2,"request_delay":60,"result_abort":[],"result_ack":[],"results":[],"rpc_seqno":1,"user_name":"Bob","user_total_credit":0}
> 1970-01-01T00:16:40Z call k3 1 c3 linux ,"work_req_seconds":3600
< 200 {"end_word":"enough","host_total_credit":0,"hostid":3,"request_delay":60,"result_abort":[],"result_ack":[],"results":[{"app_name":"dock","estimate":3600,"name":"h1_1","platform":"linux","report_deadline":8200,"resent":false,"version_num":103,"wu_name":"h1"}],"rpc_seqno":1,"user_name":"Cid","user_total_credit":0}
> 1970-01-01T00:18:20Z call k1 2 c1 win ,"other_results":[]
< 200 {"end_word":"enough","host_total_credit":0,"hostid":1,"request_delay":60,"result_abort":[],"result_ack":[],"results":[],"rpc_seqno":2,"user_name":"Ann","user_total_credit":0}
> 1970-01-01T00:00:00Z hosts/1
< 200 "result,app,sent,deadline,server_state,outcome,validate_state,credit\nh1_0,dock,1970-01-01 00:16:40,1970-01-01 02:16:40,5,4,0,0.000\ntotal,,,,,,,0.000\n"

= a workunit that is not marked is for versions of any class
> 1970-01-01T00:00:00Z import/versions/v9 "app,platform,version_num,version_class\ndock,linux,103,x\ndock,win,103,y\n"
< 200 {"batch":"v9","kind":"versions","rows":2}
> 1970-01-01T00:00:00Z marked u9 h1,dock,2,2,3,5,4,7200,3600000,1000,1000,5000,0
< 200 {"batch":"u9","kind":"workunits","rows":1}
> 1970-01-01T00:16:40Z call k1 1 c1 linux ,"work_req_seconds":3600
< 200 {"end_word":"enough","host_total_credit":0,"hostid":1,"request_delay":60,"result_abort":[],"result_ack":[],"results":[{"app_name":"dock","estimate":3600,"name":"h1_0","platform":"linux","report_deadline":8200,"resent":false,"version_num":103,"wu_name":"h1"}],"rpc_seqno":1,"user_name":"Ann","user_total_credit":0}
> 1970-01-01T00:16:40Z call k2 1 c2 win ,"work_req_seconds":3600
< 200 {"end_word":"enough","host_total_credit":0,"hostid":2,"request_delay":60,"result_abort":[],"result_ack":[],"results":[{"app_name":"dock","estimate":3600,"name":"h1_1","platform":"win","report_deadline":8200,"resent":false,"version_num":103,"wu_name":"h1"}],"rpc_seqno":1,"user_name":"Bob","user_total_credit":0}

= a class that is no word and a mark that is none are told by their columns
# with the shorter header a row has no class
> 1970-01-01T00:00:00Z import/versions/v9 "app,platform,version_num,version_class\ndock,linux,103,x\ndock,linux,104,x y\n"
< 400 {"column":4,"error":"bad_csv","number":14,"row":2}
> 1970-01-01T00:00:00Z import/versions/v9 "app,platform,version_num\ndock,linux,103,x\n"
< 400 {"column":0,"error":"bad_csv","number":14,"row":1}
> 1970-01-01T00:00:00Z marked u9 h1,dock,2,2,3,5,4,7200,3600000,1000,1000,5000,2
< 400 {"column":13,"error":"bad_csv","number":14,"row":1}
"#;
