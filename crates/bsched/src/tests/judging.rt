//! Worked rows of reports, and of what they decide.

pub const ROWS: &str = r#"
~ call scheduler {"authenticator":"$","rpc_seqno":$,"host_info":{"host_cpid":"$","p_fpops":1000,"m_nbytes":8000,"d_free":9000},"platform_name":"linux"$}
~ units import/workunits/$ "name,app,min_quorum,target_nresults,max_error_results,max_total_results,max_success_results,delay_bound,rsc_fpops_est,rsc_memory_bound,rsc_disk_bound,credit\n$\n"

= a reported job is not lost
> 1970-01-01T00:00:00Z units u3 w1,dock,2,2,3,5,4,7200,3600000,1000,1000,5000
< 200 {"batch":"u3","kind":"workunits","rows":1}
> 1970-01-01T00:16:40Z call k1 1 c1 ,"work_req_seconds":3600
< 200 {"end_word":"enough","host_total_credit":0,"hostid":1,"request_delay":60,"result_abort":[],"result_ack":[],"results":[{"app_name":"dock","estimate":3600,"name":"w1_0","platform":"linux","report_deadline":8200,"resent":false,"version_num":102,"wu_name":"w1"}],"rpc_seqno":1,"user_name":"Ann","user_total_credit":0}
> 1970-01-01T00:18:20Z call k1 2 c1 ,"other_results":[],"results":[{"name":"w1_0","exit_status":0,"output":"ok"}]
< 200 {"end_word":"enough","host_total_credit":0,"hostid":1,"request_delay":60,"result_abort":[],"result_ack":["w1_0"],"results":[],"rpc_seqno":2,"user_name":"Ann","user_total_credit":0}

= a lost job of a done workunit is not sent again
> 1970-01-01T00:00:00Z units u3 w5,dock,1,2,3,5,4,7200,3600000,1000,1000,5000
< 200 {"batch":"u3","kind":"workunits","rows":1}
> 1970-01-01T00:16:40Z call k1 1 c1 ,"work_req_seconds":3600
< 200 {"end_word":"enough","host_total_credit":0,"hostid":1,"request_delay":60,"result_abort":[],"result_ack":[],"results":[{"app_name":"dock","estimate":3600,"name":"w5_0","platform":"linux","report_deadline":8200,"resent":false,"version_num":102,"wu_name":"w5"}],"rpc_seqno":1,"user_name":"Ann","user_total_credit":0}
> 1970-01-01T00:16:40Z call k2 1 c2 ,"work_req_seconds":3600
< 200 {"end_word":"enough","host_total_credit":0,"hostid":2,"request_delay":60,"result_abort":[],"result_ack":[],"results":[{"app_name":"dock","estimate":3600,"name":"w5_1","platform":"linux","report_deadline":8200,"resent":false,"version_num":102,"wu_name":"w5"}],"rpc_seqno":1,"user_name":"Bob","user_total_credit":0}
> 1970-01-01T00:33:20Z call k2 2 c2 ,"results":[{"name":"w5_1","exit_status":0,"output":"x"}]
< 200 {"end_word":"enough","host_total_credit":5000,"hostid":2,"request_delay":60,"result_abort":[],"result_ack":["w5_1"],"results":[],"rpc_seqno":2,"user_name":"Bob","user_total_credit":5000}
> 1970-01-01T00:35:00Z call k1 2 c1 ,"other_results":[]
< 200 {"end_word":"enough","host_total_credit":0,"hostid":1,"request_delay":60,"result_abort":[],"result_ack":[],"results":[],"rpc_seqno":2,"user_name":"Ann","user_total_credit":0}

= a report that agrees has credit behind the quorum
> 1970-01-01T00:00:00Z units u3 w5,dock,1,2,3,5,4,7200,3600000,1000,1000,5000
< 200 {"batch":"u3","kind":"workunits","rows":1}
> 1970-01-01T00:16:40Z call k1 1 c1 ,"work_req_seconds":3600
< 200 {"end_word":"enough","host_total_credit":0,"hostid":1,"request_delay":60,"result_abort":[],"result_ack":[],"results":[{"app_name":"dock","estimate":3600,"name":"w5_0","platform":"linux","report_deadline":8200,"resent":false,"version_num":102,"wu_name":"w5"}],"rpc_seqno":1,"user_name":"Ann","user_total_credit":0}
> 1970-01-01T00:16:40Z call k2 1 c2 ,"work_req_seconds":3600
< 200 {"end_word":"enough","host_total_credit":0,"hostid":2,"request_delay":60,"result_abort":[],"result_ack":[],"results":[{"app_name":"dock","estimate":3600,"name":"w5_1","platform":"linux","report_deadline":8200,"resent":false,"version_num":102,"wu_name":"w5"}],"rpc_seqno":1,"user_name":"Bob","user_total_credit":0}
> 1970-01-01T00:33:20Z call k2 2 c2 ,"results":[{"name":"w5_1","exit_status":0,"output":"x"}]
< 200 {"end_word":"enough","host_total_credit":5000,"hostid":2,"request_delay":60,"result_abort":[],"result_ack":["w5_1"],"results":[],"rpc_seqno":2,"user_name":"Bob","user_total_credit":5000}
> 1970-01-01T00:35:00Z call k1 2 c1 ,"results":[{"name":"w5_0","exit_status":0,"output":"x"}]
< 200 {"end_word":"enough","host_total_credit":5000,"hostid":1,"request_delay":60,"result_abort":[],"result_ack":["w5_0"],"results":[],"rpc_seqno":2,"user_name":"Ann","user_total_credit":5000}

= the first report with enough agreement decides
> 1970-01-01T00:00:00Z units u3 f1,fold,3,3,3,6,5,7200,3600000,1000,1000,5000
< 200 {"batch":"u3","kind":"workunits","rows":1}
> 1970-01-01T00:16:40Z call k1 1 c1 ,"work_req_seconds":3600
< 200 {"end_word":"enough","host_total_credit":0,"hostid":1,"request_delay":60,"result_abort":[],"result_ack":[],"results":[{"app_name":"fold","estimate":3600,"name":"f1_0","platform":"linux","report_deadline":8200,"resent":false,"version_num":7,"wu_name":"f1"}],"rpc_seqno":1,"user_name":"Ann","user_total_credit":0}
> 1970-01-01T00:16:40Z call k2 1 c2 ,"work_req_seconds":3600
< 200 {"end_word":"enough","host_total_credit":0,"hostid":2,"request_delay":60,"result_abort":[],"result_ack":[],"results":[{"app_name":"fold","estimate":3600,"name":"f1_1","platform":"linux","report_deadline":8200,"resent":false,"version_num":7,"wu_name":"f1"}],"rpc_seqno":1,"user_name":"Bob","user_total_credit":0}
> 1970-01-01T00:16:40Z call k3 1 c3 ,"work_req_seconds":3600
< 200 {"end_word":"enough","host_total_credit":0,"hostid":3,"request_delay":60,"result_abort":[],"result_ack":[],"results":[{"app_name":"fold","estimate":3600,"name":"f1_2","platform":"linux","report_deadline":8200,"resent":false,"version_num":7,"wu_name":"f1"}],"rpc_seqno":1,"user_name":"Cid","user_total_credit":0}
> 1970-01-01T00:33:20Z call k1 2 c1 ,"results":[{"name":"f1_0","exit_status":0,"output":"10"}]
< 200 {"end_word":"enough","host_total_credit":0,"hostid":1,"request_delay":60,"result_abort":[],"result_ack":["f1_0"],"results":[],"rpc_seqno":2,"user_name":"Ann","user_total_credit":0}
> 1970-01-01T00:33:20Z call k2 2 c2 ,"results":[{"name":"f1_1","exit_status":0,"output":"13"}]
< 200 {"end_word":"enough","host_total_credit":0,"hostid":2,"request_delay":60,"result_abort":[],"result_ack":["f1_1"],"results":[],"rpc_seqno":2,"user_name":"Bob","user_total_credit":0}
> 1970-01-01T00:33:20Z call k3 2 c3 ,"results":[{"name":"f1_2","exit_status":0,"output":"12"}]
< 200 {"end_word":"enough","host_total_credit":5000,"hostid":3,"request_delay":60,"result_abort":[],"result_ack":["f1_2"],"results":[],"rpc_seqno":2,"user_name":"Cid","user_total_credit":5000}
> 1970-01-01T00:35:00Z call k1 3 c1
< 200 {"end_word":"enough","host_total_credit":5000,"hostid":1,"request_delay":60,"result_abort":[],"result_ack":[],"results":[],"rpc_seqno":3,"user_name":"Ann","user_total_credit":5000}
> 1970-01-01T00:35:00Z call k2 3 c2
< 200 {"end_word":"enough","host_total_credit":0,"hostid":2,"request_delay":60,"result_abort":[],"result_ack":[],"results":[],"rpc_seqno":3,"user_name":"Bob","user_total_credit":0}
> 1970-01-01T00:35:00Z call k3 3 c3
< 200 {"end_word":"enough","host_total_credit":5000,"hostid":3,"request_delay":60,"result_abort":[],"result_ack":[],"results":[],"rpc_seqno":3,"user_name":"Cid","user_total_credit":5000}

= a report that differs from two others has no credit
> 1970-01-01T00:00:00Z units u3 m1,dock,3,3,3,6,5,7200,3600000,1000,1000,5000
< 200 {"batch":"u3","kind":"workunits","rows":1}
> 1970-01-01T00:16:40Z call k1 1 c1 ,"work_req_seconds":3600
< 200 {"end_word":"enough","host_total_credit":0,"hostid":1,"request_delay":60,"result_abort":[],"result_ack":[],"results":[{"app_name":"dock","estimate":3600,"name":"m1_0","platform":"linux","report_deadline":8200,"resent":false,"version_num":102,"wu_name":"m1"}],"rpc_seqno":1,"user_name":"Ann","user_total_credit":0}
> 1970-01-01T00:16:40Z call k2 1 c2 ,"work_req_seconds":3600
< 200 {"end_word":"enough","host_total_credit":0,"hostid":2,"request_delay":60,"result_abort":[],"result_ack":[],"results":[{"app_name":"dock","estimate":3600,"name":"m1_1","platform":"linux","report_deadline":8200,"resent":false,"version_num":102,"wu_name":"m1"}],"rpc_seqno":1,"user_name":"Bob","user_total_credit":0}
> 1970-01-01T00:16:40Z call k3 1 c3 ,"work_req_seconds":3600
< 200 {"end_word":"enough","host_total_credit":0,"hostid":3,"request_delay":60,"result_abort":[],"result_ack":[],"results":[{"app_name":"dock","estimate":3600,"name":"m1_2","platform":"linux","report_deadline":8200,"resent":false,"version_num":102,"wu_name":"m1"}],"rpc_seqno":1,"user_name":"Cid","user_total_credit":0}
> 1970-01-01T00:33:20Z call k3 2 c3 ,"results":[{"name":"m1_2","exit_status":0,"output":"x"}]
< 200 {"end_word":"enough","host_total_credit":0,"hostid":3,"request_delay":60,"result_abort":[],"result_ack":["m1_2"],"results":[],"rpc_seqno":2,"user_name":"Cid","user_total_credit":0}
> 1970-01-01T00:33:20Z call k1 2 c1 ,"results":[{"name":"m1_0","exit_status":0,"output":"x"}]
< 200 {"end_word":"enough","host_total_credit":0,"hostid":1,"request_delay":60,"result_abort":[],"result_ack":["m1_0"],"results":[],"rpc_seqno":2,"user_name":"Ann","user_total_credit":0}
> 1970-01-01T00:33:20Z call k2 2 c2 ,"results":[{"name":"m1_1","exit_status":0,"output":"y"}]
< 200 {"end_word":"enough","host_total_credit":0,"hostid":2,"request_delay":60,"result_abort":[],"result_ack":["m1_1"],"results":[],"rpc_seqno":2,"user_name":"Bob","user_total_credit":0}
> 1970-01-01T00:35:00Z call k1 3 c1
< 200 {"end_word":"enough","host_total_credit":5000,"hostid":1,"request_delay":60,"result_abort":[],"result_ack":[],"results":[],"rpc_seqno":3,"user_name":"Ann","user_total_credit":5000}
> 1970-01-01T00:35:00Z call k3 3 c3
< 200 {"end_word":"enough","host_total_credit":5000,"hostid":3,"request_delay":60,"result_abort":[],"result_ack":[],"results":[],"rpc_seqno":3,"user_name":"Cid","user_total_credit":5000}

= two pairs of four decide nothing
# three have to agree
> 1970-01-01T00:00:00Z units u3 q1,dock,4,4,3,6,5,7200,3600000,1000,1000,5000
< 200 {"batch":"u3","kind":"workunits","rows":1}
> 1970-01-01T00:00:00Z account k4
< 200 {"batch":"k4","kind":"accounts","rows":1}
> 1970-01-01T00:00:00Z account k5
< 200 {"batch":"k5","kind":"accounts","rows":1}
> 1970-01-01T00:16:40Z call k1 1 c1 ,"work_req_seconds":3600
< 200 {"end_word":"enough","host_total_credit":0,"hostid":1,"request_delay":60,"result_abort":[],"result_ack":[],"results":[{"app_name":"dock","estimate":3600,"name":"q1_0","platform":"linux","report_deadline":8200,"resent":false,"version_num":102,"wu_name":"q1"}],"rpc_seqno":1,"user_name":"Ann","user_total_credit":0}
> 1970-01-01T00:16:40Z call k2 1 c2 ,"work_req_seconds":3600
< 200 {"end_word":"enough","host_total_credit":0,"hostid":2,"request_delay":60,"result_abort":[],"result_ack":[],"results":[{"app_name":"dock","estimate":3600,"name":"q1_1","platform":"linux","report_deadline":8200,"resent":false,"version_num":102,"wu_name":"q1"}],"rpc_seqno":1,"user_name":"Bob","user_total_credit":0}
> 1970-01-01T00:16:40Z call k3 1 c3 ,"work_req_seconds":3600
< 200 {"end_word":"enough","host_total_credit":0,"hostid":3,"request_delay":60,"result_abort":[],"result_ack":[],"results":[{"app_name":"dock","estimate":3600,"name":"q1_2","platform":"linux","report_deadline":8200,"resent":false,"version_num":102,"wu_name":"q1"}],"rpc_seqno":1,"user_name":"Cid","user_total_credit":0}
> 1970-01-01T00:16:40Z call k4 1 c4 ,"work_req_seconds":3600
< 200 {"end_word":"enough","host_total_credit":0,"hostid":4,"request_delay":60,"result_abort":[],"result_ack":[],"results":[{"app_name":"dock","estimate":3600,"name":"q1_3","platform":"linux","report_deadline":8200,"resent":false,"version_num":102,"wu_name":"q1"}],"rpc_seqno":1,"user_name":"k4","user_total_credit":0}
> 1970-01-01T00:33:20Z call k1 2 c1 ,"results":[{"name":"q1_0","exit_status":0,"output":"x"}]
< 200 {"end_word":"enough","host_total_credit":0,"hostid":1,"request_delay":60,"result_abort":[],"result_ack":["q1_0"],"results":[],"rpc_seqno":2,"user_name":"Ann","user_total_credit":0}
> 1970-01-01T00:33:20Z call k2 2 c2 ,"results":[{"name":"q1_1","exit_status":0,"output":"x"}]
< 200 {"end_word":"enough","host_total_credit":0,"hostid":2,"request_delay":60,"result_abort":[],"result_ack":["q1_1"],"results":[],"rpc_seqno":2,"user_name":"Bob","user_total_credit":0}
> 1970-01-01T00:33:20Z call k3 2 c3 ,"results":[{"name":"q1_2","exit_status":0,"output":"y"}]
< 200 {"end_word":"enough","host_total_credit":0,"hostid":3,"request_delay":60,"result_abort":[],"result_ack":["q1_2"],"results":[],"rpc_seqno":2,"user_name":"Cid","user_total_credit":0}
> 1970-01-01T00:33:20Z call k4 2 c4 ,"results":[{"name":"q1_3","exit_status":0,"output":"y"}]
< 200 {"end_word":"enough","host_total_credit":0,"hostid":4,"request_delay":60,"result_abort":[],"result_ack":["q1_3"],"results":[],"rpc_seqno":2,"user_name":"k4","user_total_credit":0}
> 1970-01-01T00:16:40Z call k5 1 c5 ,"work_req_seconds":3600
< 200 {"end_word":"enough","host_total_credit":0,"hostid":5,"request_delay":60,"result_abort":[],"result_ack":[],"results":[{"app_name":"dock","estimate":3600,"name":"q1_4","platform":"linux","report_deadline":8200,"resent":false,"version_num":102,"wu_name":"q1"}],"rpc_seqno":1,"user_name":"k5","user_total_credit":0}
> 1970-01-01T00:33:20Z call k5 2 c5 ,"results":[{"name":"q1_4","exit_status":0,"output":"x"}]
< 200 {"end_word":"enough","host_total_credit":5000,"hostid":5,"request_delay":60,"result_abort":[],"result_ack":["q1_4"],"results":[],"rpc_seqno":2,"user_name":"k5","user_total_credit":5000}
> 1970-01-01T00:35:00Z call k1 3 c1
< 200 {"end_word":"enough","host_total_credit":5000,"hostid":1,"request_delay":60,"result_abort":[],"result_ack":[],"results":[],"rpc_seqno":3,"user_name":"Ann","user_total_credit":5000}
> 1970-01-01T00:35:00Z call k3 3 c3
< 200 {"end_word":"enough","host_total_credit":0,"hostid":3,"request_delay":60,"result_abort":[],"result_ack":[],"results":[],"rpc_seqno":3,"user_name":"Cid","user_total_credit":0}

= a report of another host's job changes nothing
> 1970-01-01T00:00:00Z units u3 w1,dock,2,2,3,5,4,7200,3600000,1000,1000,5000
< 200 {"batch":"u3","kind":"workunits","rows":1}
> 1970-01-01T00:16:40Z call k1 1 c1 ,"work_req_seconds":3600
< 200 {"end_word":"enough","host_total_credit":0,"hostid":1,"request_delay":60,"result_abort":[],"result_ack":[],"results":[{"app_name":"dock","estimate":3600,"name":"w1_0","platform":"linux","report_deadline":8200,"resent":false,"version_num":102,"wu_name":"w1"}],"rpc_seqno":1,"user_name":"Ann","user_total_credit":0}
> 1970-01-01T00:16:40Z call k2 1 c2 ,"results":[{"name":"w1_0","exit_status":0}]
< 200 {"end_word":"enough","host_total_credit":0,"hostid":2,"request_delay":60,"result_abort":[],"result_ack":["w1_0"],"results":[],"rpc_seqno":1,"user_name":"Bob","user_total_credit":0}
> 1970-01-01T00:16:40Z call k1 2 c1 ,"other_results":["zz_0","w1_0"]
< 200 {"end_word":"enough","host_total_credit":0,"hostid":1,"request_delay":60,"result_abort":["zz_0"],"result_ack":[],"results":[],"rpc_seqno":2,"user_name":"Ann","user_total_credit":0}

= numbers agree that are near, and texts that are equal
> 1970-01-01T00:00:00Z units u3 f2,fold,2,2,3,5,4,7200,3600000,1000,1000,5000\nf3,fold,2,2,3,5,4,7200,3600000,1000,1000,5000\nf4,fold,2,2,3,5,4,7200,3600000,1000,1000,5000
< 200 {"batch":"u3","kind":"workunits","rows":3}
> 1970-01-01T00:16:40Z call k1 1 c1 ,"work_req_seconds":7200
< 200 {"end_word":"enough","host_total_credit":0,"hostid":1,"request_delay":60,"result_abort":[],"result_ack":[],"results":[{"app_name":"fold","estimate":3600,"name":"f2_0","platform":"linux","report_deadline":8200,"resent":false,"version_num":7,"wu_name":"f2"},{"app_name":"fold","estimate":3600,"name":"f3_0","platform":"linux","report_deadline":8200,"resent":false,"version_num":7,"wu_name":"f3"}],"rpc_seqno":1,"user_name":"Ann","user_total_credit":0}
> 1970-01-01T00:16:40Z call k1 2 c1 ,"work_req_seconds":3600
< 200 {"end_word":"enough","host_total_credit":0,"hostid":1,"request_delay":60,"result_abort":[],"result_ack":[],"results":[{"app_name":"fold","estimate":3600,"name":"f4_0","platform":"linux","report_deadline":8200,"resent":false,"version_num":7,"wu_name":"f4"}],"rpc_seqno":2,"user_name":"Ann","user_total_credit":0}
> 1970-01-01T00:16:40Z call k2 1 c2 ,"work_req_seconds":7200
< 200 {"end_word":"enough","host_total_credit":0,"hostid":2,"request_delay":60,"result_abort":[],"result_ack":[],"results":[{"app_name":"fold","estimate":3600,"name":"f2_1","platform":"linux","report_deadline":8200,"resent":false,"version_num":7,"wu_name":"f2"},{"app_name":"fold","estimate":3600,"name":"f3_1","platform":"linux","report_deadline":8200,"resent":false,"version_num":7,"wu_name":"f3"}],"rpc_seqno":1,"user_name":"Bob","user_total_credit":0}
> 1970-01-01T00:16:40Z call k2 2 c2 ,"work_req_seconds":3600
< 200 {"end_word":"enough","host_total_credit":0,"hostid":2,"request_delay":60,"result_abort":[],"result_ack":[],"results":[{"app_name":"fold","estimate":3600,"name":"f4_1","platform":"linux","report_deadline":8200,"resent":false,"version_num":7,"wu_name":"f4"}],"rpc_seqno":2,"user_name":"Bob","user_total_credit":0}
> 1970-01-01T00:33:20Z call k1 3 c1 ,"results":[{"name":"f2_0","exit_status":0,"output":"-1"}]
< 200 {"end_word":"enough","host_total_credit":0,"hostid":1,"request_delay":60,"result_abort":[],"result_ack":["f2_0"],"results":[],"rpc_seqno":3,"user_name":"Ann","user_total_credit":0}
> 1970-01-01T00:33:20Z call k1 4 c1 ,"results":[{"name":"f3_0","exit_status":0,"output":"x"}]
< 200 {"end_word":"enough","host_total_credit":0,"hostid":1,"request_delay":60,"result_abort":[],"result_ack":["f3_0"],"results":[],"rpc_seqno":4,"user_name":"Ann","user_total_credit":0}
> 1970-01-01T00:33:20Z call k1 5 c1 ,"results":[{"name":"f4_0","exit_status":0,"output":"01"}]
< 200 {"end_word":"enough","host_total_credit":0,"hostid":1,"request_delay":60,"result_abort":[],"result_ack":["f4_0"],"results":[],"rpc_seqno":5,"user_name":"Ann","user_total_credit":0}
> 1970-01-01T00:33:20Z call k2 3 c2 ,"results":[{"name":"f2_1","exit_status":0,"output":"1"}]
< 200 {"end_word":"enough","host_total_credit":5000,"hostid":2,"request_delay":60,"result_abort":[],"result_ack":["f2_1"],"results":[],"rpc_seqno":3,"user_name":"Bob","user_total_credit":5000}
> 1970-01-01T00:33:20Z call k2 4 c2 ,"results":[{"name":"f3_1","exit_status":0,"output":"x"}]
< 200 {"end_word":"enough","host_total_credit":10000,"hostid":2,"request_delay":60,"result_abort":[],"result_ack":["f3_1"],"results":[],"rpc_seqno":4,"user_name":"Bob","user_total_credit":10000}
> 1970-01-01T00:33:20Z call k2 5 c2 ,"results":[{"name":"f4_1","exit_status":0,"output":"1"}]
< 200 {"end_word":"enough","host_total_credit":10000,"hostid":2,"request_delay":60,"result_abort":[],"result_ack":["f4_1"],"results":[],"rpc_seqno":5,"user_name":"Bob","user_total_credit":10000}
"#;
