//! Worked rows of grants and lost jobs.

pub const ROWS: &str = r#"
~ call scheduler {"authenticator":"$","rpc_seqno":$,"host_info":{"host_cpid":"$","p_fpops":1000,"m_nbytes":8000,"d_free":9000},"platform_name":"linux"$}
~ units import/workunits/$ "name,app,min_quorum,target_nresults,max_error_results,max_total_results,max_success_results,delay_bound,rsc_fpops_est,rsc_memory_bound,rsc_disk_bound,credit\n$\n"

= a repeat is told no job, though work came between
> 1970-01-01T00:16:40Z call k1 1 c1 ,"work_req_seconds":3600
< 200 {"end_word":"no_eligible_work","host_total_credit":0,"hostid":1,"request_delay":60,"result_abort":[],"result_ack":[],"results":[],"rpc_seqno":1,"user_name":"Ann","user_total_credit":0}
> 1970-01-01T00:00:00Z units u3 w1,dock,2,2,3,5,4,7200,3600000,1000,1000,5000
< 200 {"batch":"u3","kind":"workunits","rows":1}
> 1970-01-01T00:18:20Z call k1 1 c1 ,"work_req_seconds":3600
< 200 {"end_word":"no_eligible_work","host_total_credit":0,"hostid":1,"request_delay":60,"result_abort":[],"result_ack":[],"results":[],"rpc_seqno":1,"user_name":"Ann","user_total_credit":0}

= one job is enough where it reaches what was asked
> 1970-01-01T00:00:00Z units u3 w1,dock,2,2,3,5,4,7200,3600000,1000,1000,5000\nw2,dock,2,2,3,5,4,7200,3600000,1000,1000,5000
< 200 {"batch":"u3","kind":"workunits","rows":2}
> 1970-01-01T00:16:40Z call k1 1 c1 ,"work_req_seconds":3600
< 200 {"end_word":"enough","host_total_credit":0,"hostid":1,"request_delay":60,"result_abort":[],"result_ack":[],"results":[{"app_name":"dock","estimate":3600,"name":"w1_0","platform":"linux","report_deadline":8200,"resent":false,"version_num":102,"wu_name":"w1"}],"rpc_seqno":1,"user_name":"Ann","user_total_credit":0}

= two jobs come for a second more
> 1970-01-01T00:00:00Z units u3 w1,dock,2,2,3,5,4,7200,3600000,1000,1000,5000\nw2,dock,2,2,3,5,4,7200,3600000,1000,1000,5000
< 200 {"batch":"u3","kind":"workunits","rows":2}
> 1970-01-01T00:16:40Z call k1 1 c1 ,"work_req_seconds":3601
< 200 {"end_word":"enough","host_total_credit":0,"hostid":1,"request_delay":60,"result_abort":[],"result_ack":[],"results":[{"app_name":"dock","estimate":3600,"name":"w1_0","platform":"linux","report_deadline":8200,"resent":false,"version_num":102,"wu_name":"w1"},{"app_name":"dock","estimate":3600,"name":"w2_0","platform":"linux","report_deadline":8200,"resent":false,"version_num":102,"wu_name":"w2"}],"rpc_seqno":1,"user_name":"Ann","user_total_credit":0}

= no third job comes for all
> 1970-01-01T00:00:00Z units u3 w1,dock,2,2,3,5,4,7200,3600000,1000,1000,5000\nw2,dock,2,2,3,5,4,7200,3600000,1000,1000,5000
< 200 {"batch":"u3","kind":"workunits","rows":2}
> 1970-01-01T00:16:40Z call k1 1 c1 ,"work_req_seconds":100000
< 200 {"end_word":"reply_limit","host_total_credit":0,"hostid":1,"request_delay":60,"result_abort":[],"result_ack":[],"results":[{"app_name":"dock","estimate":3600,"name":"w1_0","platform":"linux","report_deadline":8200,"resent":false,"version_num":102,"wu_name":"w1"},{"app_name":"dock","estimate":3600,"name":"w2_0","platform":"linux","report_deadline":8200,"resent":false,"version_num":102,"wu_name":"w2"}],"rpc_seqno":1,"user_name":"Ann","user_total_credit":0}

= a host gets one job of a workunit
> 1970-01-01T00:00:00Z units u3 w1,dock,2,2,3,5,4,7200,3600000,1000,1000,5000
< 200 {"batch":"u3","kind":"workunits","rows":1}
> 1970-01-01T00:16:40Z call k1 1 c1 ,"work_req_seconds":100000
< 200 {"end_word":"no_eligible_work","host_total_credit":0,"hostid":1,"request_delay":60,"result_abort":[],"result_ack":[],"results":[{"app_name":"dock","estimate":3600,"name":"w1_0","platform":"linux","report_deadline":8200,"resent":false,"version_num":102,"wu_name":"w1"}],"rpc_seqno":1,"user_name":"Ann","user_total_credit":0}

= a second host of a user gets no job of the workunit
> 1970-01-01T00:00:00Z units u3 w1,dock,2,2,3,5,4,7200,3600000,1000,1000,5000
< 200 {"batch":"u3","kind":"workunits","rows":1}
> 1970-01-01T00:16:40Z call k1 1 c1 ,"work_req_seconds":3600
< 200 {"end_word":"enough","host_total_credit":0,"hostid":1,"request_delay":60,"result_abort":[],"result_ack":[],"results":[{"app_name":"dock","estimate":3600,"name":"w1_0","platform":"linux","report_deadline":8200,"resent":false,"version_num":102,"wu_name":"w1"}],"rpc_seqno":1,"user_name":"Ann","user_total_credit":0}
> 1970-01-01T00:16:40Z call k1 1 c9 ,"work_req_seconds":3600
< 200 {"end_word":"no_eligible_work","host_total_credit":0,"hostid":2,"request_delay":60,"result_abort":[],"result_ack":[],"results":[],"rpc_seqno":1,"user_name":"Ann","user_total_credit":0}

= a lost job is sent again and keeps a deadline in reach
> 1970-01-01T00:00:00Z units u3 w1,dock,2,2,3,5,4,7200,3600000,1000,1000,5000
< 200 {"batch":"u3","kind":"workunits","rows":1}
> 1970-01-01T00:16:40Z call k1 1 c1 ,"work_req_seconds":3600
< 200 {"end_word":"enough","host_total_credit":0,"hostid":1,"request_delay":60,"result_abort":[],"result_ack":[],"results":[{"app_name":"dock","estimate":3600,"name":"w1_0","platform":"linux","report_deadline":8200,"resent":false,"version_num":102,"wu_name":"w1"}],"rpc_seqno":1,"user_name":"Ann","user_total_credit":0}
> 1970-01-01T01:16:40Z call k1 2 c1 ,"other_results":[]
< 200 {"end_word":"enough","host_total_credit":0,"hostid":1,"request_delay":60,"result_abort":[],"result_ack":[],"results":[{"app_name":"dock","estimate":3600,"name":"w1_0","platform":"linux","report_deadline":8200,"resent":true,"version_num":102,"wu_name":"w1"}],"rpc_seqno":2,"user_name":"Ann","user_total_credit":0}

= a lost job is sent again with a new deadline where the old one is out of reach
> 1970-01-01T00:00:00Z units u3 w1,dock,2,2,3,5,4,7200,3600000,1000,1000,5000
< 200 {"batch":"u3","kind":"workunits","rows":1}
> 1970-01-01T00:16:40Z call k1 1 c1 ,"work_req_seconds":3600
< 200 {"end_word":"enough","host_total_credit":0,"hostid":1,"request_delay":60,"result_abort":[],"result_ack":[],"results":[{"app_name":"dock","estimate":3600,"name":"w1_0","platform":"linux","report_deadline":8200,"resent":false,"version_num":102,"wu_name":"w1"}],"rpc_seqno":1,"user_name":"Ann","user_total_credit":0}
> 1970-01-01T01:16:41Z call k1 2 c1 ,"other_results":[]
< 200 {"end_word":"enough","host_total_credit":0,"hostid":1,"request_delay":60,"result_abort":[],"result_ack":[],"results":[{"app_name":"dock","estimate":3600,"name":"w1_0","platform":"linux","report_deadline":11801,"resent":true,"version_num":102,"wu_name":"w1"}],"rpc_seqno":2,"user_name":"Ann","user_total_credit":0}

= a job sent again counts as work that was asked for
> 1970-01-01T00:00:00Z units u3 w1,dock,2,2,3,5,4,7200,3600000,1000,1000,5000\nw2,dock,2,2,3,5,4,7200,3600000,1000,1000,5000
< 200 {"batch":"u3","kind":"workunits","rows":2}
> 1970-01-01T00:16:40Z call k1 1 c1 ,"work_req_seconds":3600
< 200 {"end_word":"enough","host_total_credit":0,"hostid":1,"request_delay":60,"result_abort":[],"result_ack":[],"results":[{"app_name":"dock","estimate":3600,"name":"w1_0","platform":"linux","report_deadline":8200,"resent":false,"version_num":102,"wu_name":"w1"}],"rpc_seqno":1,"user_name":"Ann","user_total_credit":0}
> 1970-01-01T00:16:40Z call k1 2 c1 ,"work_req_seconds":3600,"other_results":[]
< 200 {"end_word":"enough","host_total_credit":0,"hostid":1,"request_delay":60,"result_abort":[],"result_ack":[],"results":[{"app_name":"dock","estimate":3600,"name":"w1_0","platform":"linux","report_deadline":8200,"resent":true,"version_num":102,"wu_name":"w1"}],"rpc_seqno":2,"user_name":"Ann","user_total_credit":0}

= without a list no job is lost, and held ones count
> 1970-01-01T00:00:00Z units u3 w1,dock,2,2,3,5,4,7200,3600000,1000,1000,5000\nw2,dock,2,2,3,5,4,7200,3600000,1000,1000,5000\nw3,dock,2,2,3,5,4,7200,3600000,1000,1000,5000\nw4,dock,2,2,3,5,4,7200,3600000,1000,1000,5000
< 200 {"batch":"u3","kind":"workunits","rows":4}
> 1970-01-01T00:16:40Z call k1 1 c1 ,"work_req_seconds":7200
< 200 {"end_word":"enough","host_total_credit":0,"hostid":1,"request_delay":60,"result_abort":[],"result_ack":[],"results":[{"app_name":"dock","estimate":3600,"name":"w1_0","platform":"linux","report_deadline":8200,"resent":false,"version_num":102,"wu_name":"w1"},{"app_name":"dock","estimate":3600,"name":"w2_0","platform":"linux","report_deadline":8200,"resent":false,"version_num":102,"wu_name":"w2"}],"rpc_seqno":1,"user_name":"Ann","user_total_credit":0}
> 1970-01-01T00:18:20Z call k1 2 c1 ,"work_req_seconds":100000
< 200 {"end_word":"in_progress_limit","host_total_credit":0,"hostid":1,"request_delay":60,"result_abort":[],"result_ack":[],"results":[{"app_name":"dock","estimate":3600,"name":"w3_0","platform":"linux","report_deadline":8300,"resent":false,"version_num":102,"wu_name":"w3"}],"rpc_seqno":2,"user_name":"Ann","user_total_credit":0}

= a job fits where its estimate is at most the delay bound
> 1970-01-01T00:00:00Z units u3 w1,dock,2,2,3,5,4,7200,3600000,1000,1000,5000
< 200 {"batch":"u3","kind":"workunits","rows":1}
> 1970-01-01T00:16:40Z scheduler {"authenticator":"k1","rpc_seqno":1,"host_info":{"host_cpid":"c1","p_fpops":500,"m_nbytes":8000,"d_free":9000},"platform_name":"linux","work_req_seconds":1}
< 200 {"end_word":"enough","host_total_credit":0,"hostid":1,"request_delay":60,"result_abort":[],"result_ack":[],"results":[{"app_name":"dock","estimate":7200,"name":"w1_0","platform":"linux","report_deadline":8200,"resent":false,"version_num":102,"wu_name":"w1"}],"rpc_seqno":1,"user_name":"Ann","user_total_credit":0}

= a job does not fit where its estimate is beyond the delay bound
> 1970-01-01T00:00:00Z units u3 w1,dock,2,2,3,5,4,7200,3600000,1000,1000,5000
< 200 {"batch":"u3","kind":"workunits","rows":1}
> 1970-01-01T00:16:40Z scheduler {"authenticator":"k1","rpc_seqno":1,"host_info":{"host_cpid":"c1","p_fpops":499,"m_nbytes":8000,"d_free":9000},"platform_name":"linux","work_req_seconds":1}
< 200 {"end_word":"no_eligible_work","host_total_credit":0,"hostid":1,"request_delay":60,"result_abort":[],"result_ack":[],"results":[],"rpc_seqno":1,"user_name":"Ann","user_total_credit":0}

= a lost job that fits no more makes room for another
> 1970-01-01T00:00:00Z units u3 w1,dock,2,2,3,5,4,7200,3600000,1000,1000,5000
< 200 {"batch":"u3","kind":"workunits","rows":1}
> 1970-01-01T00:16:40Z call k1 1 c1 ,"work_req_seconds":3600
< 200 {"end_word":"enough","host_total_credit":0,"hostid":1,"request_delay":60,"result_abort":[],"result_ack":[],"results":[{"app_name":"dock","estimate":3600,"name":"w1_0","platform":"linux","report_deadline":8200,"resent":false,"version_num":102,"wu_name":"w1"}],"rpc_seqno":1,"user_name":"Ann","user_total_credit":0}
> 1970-01-01T00:18:20Z scheduler {"authenticator":"k1","rpc_seqno":2,"host_info":{"host_cpid":"c1","p_fpops":499,"m_nbytes":8000,"d_free":9000},"platform_name":"linux","other_results":[]}
< 200 {"end_word":"enough","host_total_credit":0,"hostid":1,"request_delay":60,"result_abort":[],"result_ack":[],"results":[],"rpc_seqno":2,"user_name":"Ann","user_total_credit":0}
> 1970-01-01T00:20:00Z call k2 1 c2 ,"work_req_seconds":3600
< 200 {"end_word":"enough","host_total_credit":0,"hostid":2,"request_delay":60,"result_abort":[],"result_ack":[],"results":[{"app_name":"dock","estimate":3600,"name":"w1_1","platform":"linux","report_deadline":8400,"resent":false,"version_num":102,"wu_name":"w1"}],"rpc_seqno":1,"user_name":"Bob","user_total_credit":0}
> 1970-01-01T00:20:00Z call k3 1 c3 ,"work_req_seconds":3600
< 200 {"end_word":"enough","host_total_credit":0,"hostid":3,"request_delay":60,"result_abort":[],"result_ack":[],"results":[{"app_name":"dock","estimate":3600,"name":"w1_2","platform":"linux","report_deadline":8400,"resent":false,"version_num":102,"wu_name":"w1"}],"rpc_seqno":1,"user_name":"Cid","user_total_credit":0}

= a name that is no job of the host is aborted once
> 1970-01-01T00:00:00Z units u3 w1,dock,2,2,3,5,4,7200,3600000,1000,1000,5000
< 200 {"batch":"u3","kind":"workunits","rows":1}
> 1970-01-01T00:16:40Z call k1 1 c1 ,"work_req_seconds":3600,"other_results":["w1_0","zz_0","w1_0"]
< 200 {"end_word":"enough","host_total_credit":0,"hostid":1,"request_delay":60,"result_abort":["w1_0","zz_0"],"result_ack":[],"results":[{"app_name":"dock","estimate":3600,"name":"w1_0","platform":"linux","report_deadline":8200,"resent":false,"version_num":102,"wu_name":"w1"}],"rpc_seqno":1,"user_name":"Ann","user_total_credit":0}
> 1970-01-01T00:16:40Z call k1 2 c1 ,"other_results":["w1_0"]
< 200 {"end_word":"enough","host_total_credit":0,"hostid":1,"request_delay":60,"result_abort":[],"result_ack":[],"results":[],"rpc_seqno":2,"user_name":"Ann","user_total_credit":0}

= names of what is another's or was reported are aborted
> 1970-01-01T00:00:00Z units u3 w1,dock,2,2,3,5,4,7200,3600000,1000,1000,5000
< 200 {"batch":"u3","kind":"workunits","rows":1}
> 1970-01-01T00:16:40Z call k1 1 c1 ,"work_req_seconds":3600
< 200 {"end_word":"enough","host_total_credit":0,"hostid":1,"request_delay":60,"result_abort":[],"result_ack":[],"results":[{"app_name":"dock","estimate":3600,"name":"w1_0","platform":"linux","report_deadline":8200,"resent":false,"version_num":102,"wu_name":"w1"}],"rpc_seqno":1,"user_name":"Ann","user_total_credit":0}
> 1970-01-01T00:16:40Z call k2 1 c2 ,"other_results":["w1_0"]
< 200 {"end_word":"enough","host_total_credit":0,"hostid":2,"request_delay":60,"result_abort":["w1_0"],"result_ack":[],"results":[],"rpc_seqno":1,"user_name":"Bob","user_total_credit":0}
> 1970-01-01T00:16:40Z call k1 2 c1 ,"other_results":["w1_0"],"results":[{"name":"w1_0","exit_status":0,"output":"ok"}]
< 200 {"end_word":"enough","host_total_credit":0,"hostid":1,"request_delay":60,"result_abort":["w1_0"],"result_ack":["w1_0"],"results":[],"rpc_seqno":2,"user_name":"Ann","user_total_credit":0}

= just the job that is not listed is sent again, before a new one
> 1970-01-01T00:00:00Z units u3 w1,dock,2,2,3,5,4,7200,3600000,1000,1000,5000\nw2,dock,2,2,3,5,4,7200,3600000,1000,1000,5000\nw3,dock,2,2,3,5,4,7200,3600000,1000,1000,5000
< 200 {"batch":"u3","kind":"workunits","rows":3}
> 1970-01-01T00:16:40Z call k1 1 c1 ,"work_req_seconds":7200
< 200 {"end_word":"enough","host_total_credit":0,"hostid":1,"request_delay":60,"result_abort":[],"result_ack":[],"results":[{"app_name":"dock","estimate":3600,"name":"w1_0","platform":"linux","report_deadline":8200,"resent":false,"version_num":102,"wu_name":"w1"},{"app_name":"dock","estimate":3600,"name":"w2_0","platform":"linux","report_deadline":8200,"resent":false,"version_num":102,"wu_name":"w2"}],"rpc_seqno":1,"user_name":"Ann","user_total_credit":0}
> 1970-01-01T00:18:20Z call k1 2 c1 ,"work_req_seconds":7200,"other_results":["w1_0"]
< 200 {"end_word":"enough","host_total_credit":0,"hostid":1,"request_delay":60,"result_abort":[],"result_ack":[],"results":[{"app_name":"dock","estimate":3600,"name":"w2_0","platform":"linux","report_deadline":8200,"resent":true,"version_num":102,"wu_name":"w2"},{"app_name":"dock","estimate":3600,"name":"w3_0","platform":"linux","report_deadline":8300,"resent":false,"version_num":102,"wu_name":"w3"}],"rpc_seqno":2,"user_name":"Ann","user_total_credit":0}

= a job comes with the version of the first platform that has any
# of the first platform there is no version, of the third a greater one
> 1970-01-01T00:00:00Z units u3 w1,dock,2,2,3,5,4,7200,3600000,1000,1000,5000
< 200 {"batch":"u3","kind":"workunits","rows":1}
> 1970-01-01T00:00:00Z import/versions/v1 "app,platform,version_num\ndock,win,5\n"
< 200 {"batch":"v1","kind":"versions","rows":1}
> 1970-01-01T00:16:40Z scheduler {"authenticator":"k1","rpc_seqno":1,"host_info":{"host_cpid":"c1","p_fpops":1000,"m_nbytes":8000,"d_free":9000},"platform_name":"arm","work_req_seconds":3600,"alt_platforms":["win","linux"]}
< 200 {"end_word":"enough","host_total_credit":0,"hostid":1,"request_delay":60,"result_abort":[],"result_ack":[],"results":[{"app_name":"dock","estimate":3600,"name":"w1_0","platform":"win","report_deadline":8200,"resent":false,"version_num":5,"wu_name":"w1"}],"rpc_seqno":1,"user_name":"Ann","user_total_credit":0}
> 1970-01-01T00:16:40Z scheduler {"authenticator":"k2","rpc_seqno":1,"host_info":{"host_cpid":"c2","p_fpops":1000,"m_nbytes":8000,"d_free":9000},"platform_name":"arm","work_req_seconds":3600}
< 200 {"end_word":"no_eligible_work","host_total_credit":0,"hostid":2,"request_delay":60,"result_abort":[],"result_ack":[],"results":[],"rpc_seqno":1,"user_name":"Bob","user_total_credit":0}

= a job sent again has the version and the estimate of now
> 1970-01-01T00:00:00Z units u3 w1,dock,2,2,3,5,4,7200,3600000,1000,1000,5000
< 200 {"batch":"u3","kind":"workunits","rows":1}
> 1970-01-01T00:16:40Z call k1 1 c1 ,"work_req_seconds":3600
< 200 {"end_word":"enough","host_total_credit":0,"hostid":1,"request_delay":60,"result_abort":[],"result_ack":[],"results":[{"app_name":"dock","estimate":3600,"name":"w1_0","platform":"linux","report_deadline":8200,"resent":false,"version_num":102,"wu_name":"w1"}],"rpc_seqno":1,"user_name":"Ann","user_total_credit":0}
> 1970-01-01T00:00:00Z import/versions/v1 "app,platform,version_num\ndock,linux,103\n"
< 200 {"batch":"v1","kind":"versions","rows":1}
> 1970-01-01T00:16:40Z scheduler {"authenticator":"k1","rpc_seqno":2,"host_info":{"host_cpid":"c1","p_fpops":500,"m_nbytes":8000,"d_free":9000},"platform_name":"linux","other_results":[]}
< 200 {"end_word":"enough","host_total_credit":0,"hostid":1,"request_delay":60,"result_abort":[],"result_ack":[],"results":[{"app_name":"dock","estimate":7200,"name":"w1_0","platform":"linux","report_deadline":8200,"resent":true,"version_num":103,"wu_name":"w1"}],"rpc_seqno":2,"user_name":"Ann","user_total_credit":0}

= a job fits where memory and disk are at least its bounds
# the facts that stand last count
> 1970-01-01T00:00:00Z units u3 w1,dock,2,2,3,5,4,7200,3600000,1000,1000,5000
< 200 {"batch":"u3","kind":"workunits","rows":1}
> 1970-01-01T00:16:40Z call k1 1 c1 ,"work_req_seconds":3600,"host_info":{"host_cpid":"c1","p_fpops":1000,"m_nbytes":1000,"d_free":1000}
< 200 {"end_word":"enough","host_total_credit":0,"hostid":1,"request_delay":60,"result_abort":[],"result_ack":[],"results":[{"app_name":"dock","estimate":3600,"name":"w1_0","platform":"linux","report_deadline":8200,"resent":false,"version_num":102,"wu_name":"w1"}],"rpc_seqno":1,"user_name":"Ann","user_total_credit":0}
> 1970-01-01T00:16:40Z call k2 1 c2 ,"work_req_seconds":3600,"host_info":{"host_cpid":"c2","p_fpops":1000,"m_nbytes":999,"d_free":1000}
< 200 {"end_word":"no_eligible_work","host_total_credit":0,"hostid":2,"request_delay":60,"result_abort":[],"result_ack":[],"results":[],"rpc_seqno":1,"user_name":"Bob","user_total_credit":0}
> 1970-01-01T00:16:40Z call k3 1 c3 ,"work_req_seconds":3600,"host_info":{"host_cpid":"c3","p_fpops":1000,"m_nbytes":1000,"d_free":999}
< 200 {"end_word":"no_eligible_work","host_total_credit":0,"hostid":3,"request_delay":60,"result_abort":[],"result_ack":[],"results":[],"rpc_seqno":1,"user_name":"Cid","user_total_credit":0}
"#;
